// What the user's sentences about the two moves come to, as theorems over what the moves promise: definitions in specs/, theorems in proofs/, and no function.
#![tactic(auto)]
