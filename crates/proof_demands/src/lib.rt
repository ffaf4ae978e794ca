// The three demands over the contracts of the public operations: definitions in specs/, theorems in proofs/, and no function.
#![tactic(auto)]
