// What the user's sentences about printing a rule back come to, as theorems over what is promised: definitions in specs/, theorems in proofs/, and no function.
#![tactic(auto)]
