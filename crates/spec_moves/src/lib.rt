// What the moves between readings and spans promise: definitions in specs/, theorems in proofs/, and no function.
#![tactic(auto)]
