// The user's sentences about captions, as theorems over what caption promises: definitions and theorems, and no function.
#![tactic(auto)]
