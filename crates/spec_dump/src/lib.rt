// Value change dumps: definitions and theorems, and no function.
#![tactic(auto)]
