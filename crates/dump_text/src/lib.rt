// The dump of a table, written into a lent buffer: it is measured where there is no room. Assumes that the table has the signals' rows, and that the names,
// which stand at `places` of the sheet text `s`, are short.
#![tactic(auto)]

pub mod changes;
pub mod text;
