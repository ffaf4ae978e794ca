// Prints the listing of the sheet and the readings in the current folder with its captions: sheet.txt, readings.txt and captions.txt. A file that can't be
// read counts as empty.
#![tactic(auto)]

use list_captioned::settle_captioned;
use run_parts::{TEXT, read_text};
use spec_limits::{CAPTIONED, LISTED_WORDS};
use std::io;
use std::io::Write;

fn main(rt: HostRuntime) -> io::Result<()> {
    let mut sheet = [0u8; TEXT];
    let mut readings = [0u8; TEXT];
    let mut captions = [0u8; TEXT];
    let mut table = [0u64; LISTED_WORDS];
    let mut out = [0u8; CAPTIONED];
    let a = read_text(&rt, b"sheet.txt", &mut sheet);
    let b = read_text(&rt, b"readings.txt", &mut readings);
    let c = read_text(&rt, b"captions.txt", &mut captions);
    let n = settle_captioned(
        &sheet[..a],
        &readings[..b],
        &captions[..c],
        &mut table,
        &mut out,
    );
    rt.stdout().write_all(&out[..n])
}
