// Words as sets of ticks: definitions in specs/, laws in proofs/, and no function yet.
#![tactic(auto)]
