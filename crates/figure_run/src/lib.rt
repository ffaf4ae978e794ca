// One run's figures: what its closed table adds to the record of each signal. Assumes that the table has the signals' rows in words that cover the window,
// that no mark is outside the window, and that `clash` is told rightly.
#![tactic(auto)]

pub mod counts;
pub mod records;
