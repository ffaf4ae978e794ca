// Row codes, one number a row, each at its row's place in a lent buffer: a row more, and the rows of an interval.
#![tactic(auto)]

pub mod interval;
pub mod words;
