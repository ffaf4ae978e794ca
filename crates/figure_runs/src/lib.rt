// The runs of several readings texts against one sheet, and their figures in plain words. Assumes nothing but room for the words.
#![tactic(auto)]

pub mod opened;
pub mod runs;
pub mod whole;
