// The proved cases from their texts to the listing: the table in specs/, the theorem in proofs/, and no function.
#![tactic(auto)]
