// What the operations answer and leave in the lent table: definitions in specs/, theorems in proofs/, and no function.
#![tactic(auto)]
