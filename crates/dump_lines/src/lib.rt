// The lines of a dump, read: those up to `#0`, and the events after them. Assumes nothing of the dump. `names` is the index of the names in the sheet text `s`.
#![tactic(auto)]

pub mod events;
pub mod head;
