// A program's table of cases: texts under headings. A heading is a line of `=== `, a word and what the case shows. Assumes nothing of the cases.
// `-` after the word leaves out the text's last LF, and `*` with a number repeats the text so often.
#![tactic(auto)]

ghost use Rattle.std.specs.Prelude.{◌<◌, ◌≤◌, ◌++◌, length, OnOk, codes, decimal};
ghost use Rattle.std.specs.Io.KnownBytes.{Appends};
ghost use Rattle.run_parts.specs.Prefixes.{IsPrefixLen};

use read_bytes::bytes::{byte_at, starts_at};
use read_bytes::numbers::number_at;
use read_lines::line_end;
use read_names::spelling_end;
use std::io;
use std::io::Write;

// The most bytes of a text of the cases.
pub const TEXT_ROOM: usize = 65536;

// The place of the line after the one at `at`.
pub fn next_line(cases: &[u8], at: usize) -> usize
    requires { at < length cases.now }
    ensures { (at < result) × (result ≤ length cases.now) }
{
    let e = line_end(cases, at);
    if e < cases.len() { e + 1 } else { e }
}

// The place of the next heading from `at` on, or the end of the cases.
pub fn heading(cases: &[u8], at: usize) -> usize
    requires { at ≤ length cases.now }
    ensures { (at ≤ result) × (result ≤ length cases.now) }
{
    let mut p = at;
    while p < cases.len() {
        if starts_at(cases, p, b"=== ") {
            return p;
        }
        p = next_line(cases, p);
    }
    p
}

// How often a text is repeated: as the number after `*` says, else once.
fn times_at(cases: &[u8], at: usize) -> usize {
    if at < cases.len() {
        if cases[at] == b'*' {
            if let Some((times, _)) = number_at(cases, at + 1) {
                return times;
            }
        }
    }
    1
}

// Puts the bytes of the cases from `from` to `to` into `out`, from `used` on, as far as there is room: how many bytes are used then.
fn append(cases: &[u8], from: usize, to: usize, out: &mut [u8], used: usize) -> usize
    requires { used ≤ length out.old }
    ensures { IsPrefixLen result out.new }
{
    let mut n = used;
    for p in from..to {
        if out.len() <= n {
            return n;
        }
        out[n] = byte_at(cases, p);
        n += 1;
    }
    n
}

// The same so many times over, from the start of `out` on.
fn repeat(cases: &[u8], from: usize, to: usize, times: usize, out: &mut [u8]) -> usize
    ensures { IsPrefixLen result out.new }
{
    let mut n = 0;
    for _ in 0..times {
        n = append(cases, from, to, out, n);
    }
    n
}

// Puts the text under the heading at `at` together in `out`: how many bytes it has.
pub fn text_under(cases: &[u8], at: usize, out: &mut [u8]) -> usize
    requires { at < length cases.now }
    ensures { IsPrefixLen result out.new }
{
    let from = next_line(cases, at);
    let to = heading(cases, from);
    let option = spelling_end(cases, at + 4);
    if byte_at(cases, option) == b'-' {
        append(cases, from, to - 1, out, 0)
    } else {
        let times = times_at(cases, option);
        repeat(cases, from, to, times, out)
    }
}

// Prints a text.
pub fn print<W: Write>(output: &mut W, text: &[u8]) -> io::Result<()>
    ensures { OnOk result (Appends (W.contents output.old) (W.contents output.new) text.now) }
{
    output.write_all(text)
}

// Prints a number between two texts.
pub fn print_number<W: Write>(
    output: &mut W,
    before: &[u8],
    number: u64,
    after: &[u8],
) -> io::Result<()>
    ensures { OnOk result (Appends (W.contents output.old) (W.contents output.new) (before.now ++ (decimal number ++ after.now))) }
{
    print(output, before)?;
    write!(output, "{number}")?;
    print(output, after)
}

// Prints a refusal's number and place.
pub fn print_refusal<W: Write>(output: &mut W, number: usize, place: usize) -> io::Result<()>
    ensures { OnOk result (Appends (W.contents output.old) (W.contents output.new)
        (codes "--- refused " ++ (decimal number ++ (codes " at " ++ (decimal place ++ codes "\n"))))) }
{
    writeln!(output, "--- refused {number} at {place}")
}
