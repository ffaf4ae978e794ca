// The leaves of every reader: bytes and numbers of a text. Assumes nothing of the text; places are counted from 0.
#![tactic(auto)]

pub mod bytes;
pub mod numbers;
