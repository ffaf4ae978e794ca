// Every limit by its name, for the code. specs/Limits.antt has each number's definition, with the sentence that it comes from. Assumes nothing.
#![tactic(auto)]

// most_bytes: of a sheet, and of readings.
pub const BYTES: usize = 32768;

// most_ticks: of a window.
pub const TICKS: usize = 4096;

// most_signals
pub const SIGNALS: usize = 64;

// most_rules
pub const RULES: usize = 64;

// most_name_bytes
pub const NAME_BYTES: usize = 16;

// most_end_number: at the end of a name.
pub const END_NUMBER: usize = 9999;

// most_rule_bytes
pub const RULE_BYTES: usize = 256;

// most_open
pub const OPEN: usize = 32;

// most_end: of an interval, and of its opposite.
pub const END: usize = 63;

// most_hidden
pub const HIDDEN: usize = 32;

// most_rows
pub const ROWS: usize = 1024;

// most_listed_words: of a table that is listed.
pub const LISTED_WORDS: usize = 8192;

// most_runs: of readings texts that are run against one sheet.
pub const RUNS: usize = 64;

// most_caption_bytes
pub const CAPTION_BYTES: usize = 40;

// arena_numbers
pub const ARENA: usize = 4 * RULE_BYTES;

// offset_zero: the offset 0 as it is written.
pub const OFFSET_ZERO: usize = 64;

// most_tops
pub const TOPS: usize = RULES + HIDDEN;

// most_readings
pub const READINGS: usize = 1489;

// most_listed
pub const LISTED: usize = (NAME_BYTES + TICKS + 15) * SIGNALS + 108;

// most_captioned
pub const CAPTIONED: usize = (CAPTION_BYTES + TICKS + 15) * SIGNALS + 108;

// code_kinds
pub const KINDS: u64 = 8;

// code_numbers
pub const NUMBERS: u64 = 65536;

// code_kinds * code_numbers: what stands above both in a row's code.
pub const ABOVE: u64 = KINDS * NUMBERS;
