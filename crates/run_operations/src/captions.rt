// Runs caption on the captions under a heading, and prints what is shown of a signal and where it comes from. Assumes nothing of the cases.
ghost use Rattle.std.specs.Prelude.{◌<◌, length};

use crate::numbers::{decimal_at, word_after};
use op_caption::{caption, caption_part};
use read_captions::Part;
use run_cases::{TEXT_ROOM, print, print_number, print_refusal, text_under};
use std::io;
use std::io::Write;

// Prints which text a part is in, where it starts, and its length.
fn print_part<W: Write>(output: &mut W, part: Part) -> io::Result<()> {
    match part {
        Part::InSheet(a, n) => {
            print_number(output, b"--- in the sheet at ", a as u64, b", length ")?;
            print_number(output, b"", n as u64, b"\n")
        }
        Part::InCaptions(a, n) => {
            print_number(output, b"--- in the captions at ", a as u64, b", length ")?;
            print_number(output, b"", n as u64, b"\n")
        }
    }
}

// Prints the part that is shown of a signal, or the refusal; then its bytes, as the other function gives them.
fn print_caption<'a, W: Write>(
    output: &mut W,
    s: &'a [u8],
    c: &'a [u8],
    signal: usize,
) -> io::Result<()> {
    match caption_part(s, c, signal) {
        Ok(part) => print_part(output, part)?,
        Err(r) => print_refusal(output, r.number(), r.place)?,
    }
    let shown = caption(s, c, signal);
    print(output, b"--- shown: ")?;
    print(output, shown)?;
    print(output, b"\n")
}

// Shows the signal that the heading at `at` names, with the captions under it.
pub fn run_caption<W: Write>(output: &mut W, s: &[u8], cases: &[u8], at: usize) -> io::Result<()>
    requires { at < length cases.now }
{
    let mut buffer = [0u8; TEXT_ROOM];
    let n = text_under(cases, at, &mut buffer);
    let number = word_after(cases, at + 4);
    let signal = decimal_at(cases, number) as usize;
    print_caption(output, s, &buffer[..n], signal)
}
