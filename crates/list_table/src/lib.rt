// Writes the listing of a closed table, or of a refusal, into a lent buffer.
// Assumes of the table that it has the signals' rows in words that cover the window, and that the places of its listing can be counted.
#![tactic(auto)]

pub mod whole;
