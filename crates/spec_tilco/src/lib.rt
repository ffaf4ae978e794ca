// What a sheet means: definitions in specs/, theorems in proofs/, and no function.
#![tactic(auto)]
