// Reads the readings: a whole text, and the readings' marks in a lent table. Assumes nothing of the text.
#![tactic(auto)]

pub mod noted;
pub mod whole;
