// The grammar of a rule in the document's words: definitions in specs/, theorems in proofs/, and no function.
#![tactic(auto)]
