// A sheet's rows: its rules are read and lowered with a guess of their hidden signals, and once more where it was wrong. Assumes that the head was accepted.
#![tactic(auto)]

pub mod guess;
pub mod whole;
