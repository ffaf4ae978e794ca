// The user's sentences about dumps, as theorems over what writing and reading them promise: definitions and theorems, and no function.
#![tactic(auto)]
