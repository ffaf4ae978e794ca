// What is shown of a signal, its caption or its name: definitions and theorems, and no function.
#![tactic(auto)]
