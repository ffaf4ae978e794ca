// Value change dumps: a table written as a dump, and a dump read as readings. Assumes nothing.
#![tactic(auto)]

pub mod reading;
pub mod writing;
