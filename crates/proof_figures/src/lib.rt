// What the user's sentences about the figures of several runs come to, as theorems over what figures promises: definitions in specs/, theorems in proofs/, and no function.
#![tactic(auto)]
