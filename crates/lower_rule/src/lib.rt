// Lowering a rule: from its formula in an arena, and the defining rules of its hidden signals, to rows. Assumes a proper arena.
#![tactic(auto)]

pub mod rules;
