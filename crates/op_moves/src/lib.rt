// The moves: a readings text of either form written as spans, merged and sorted, or as single readings, each once, in the same order.
// Assumes nothing.
#![tactic(auto)]

pub mod lengths;
pub mod moves;
pub mod texts;
