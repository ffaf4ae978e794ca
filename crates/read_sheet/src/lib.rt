// Reads a rule's line of a sheet. Assumes nothing of the text; places are counted from 0.
#![tactic(auto)]

pub mod rules;
pub mod whole_rule;
