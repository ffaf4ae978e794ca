// Prints the listing of the sheet and the readings in the current folder, sheet.txt and readings.txt. A file that can't be read counts as empty.
#![tactic(auto)]

use list_settled::settle;
use run_parts::{TEXT, read_text};
use spec_limits::{LISTED, LISTED_WORDS};
use std::io;
use std::io::Write;

fn main(rt: HostRuntime) -> io::Result<()> {
    let mut sheet = [0u8; TEXT];
    let mut readings = [0u8; TEXT];
    let mut table = [0u64; LISTED_WORDS];
    let mut out = [0u8; LISTED];
    let a = read_text(&rt, b"sheet.txt", &mut sheet);
    let b = read_text(&rt, b"readings.txt", &mut readings);
    let n = settle(&sheet[..a], &readings[..b], &mut table, &mut out);
    rt.stdout().write_all(&out[..n])
}
