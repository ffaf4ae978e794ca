// A rule's text as it is printed back: definitions and theorems, and no function.
#![tactic(auto)]
