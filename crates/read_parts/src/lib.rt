// The parts of a rule that hold no formula of their own, read from its text into an arena. Assumes nothing of the text.
#![tactic(auto)]

pub mod parts;
