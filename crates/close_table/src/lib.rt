// Closes a table of marks under the inference rules. A row has `n` words for each value, 64 ticks in each.
#![tactic(auto)]

pub mod rounds;
pub mod tops;
