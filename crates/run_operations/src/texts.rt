// The operations that write a text, into a buffer full of dots, and the text that stands there then. Assumes nothing of the cases.
ghost use Rattle.std.specs.Prelude.{◌≡◌, ◌<◌, ◌≤◌, length};

use crate::numbers::{decimal_at, word_after};
use op_dump::reading::read_dump;
use op_dump::writing::write_dump;
use op_moves::moves::{to_readings, to_spans};
use op_print::print_rule;
use read_bytes::bytes::starts_at;
use run_cases::{TEXT_ROOM, print, print_number, print_refusal, text_under};
use spec_refusals::Refusal;
use std::io;
use std::io::Write;

// The largest buffer that is lent.
const ROOM: usize = 65536;

// The longest text that is printed whole.
const WHOLE: usize = 32000;

// So many bytes are printed of a longer one, its last.
const END: usize = 100;

// A buffer full of dots.
fn dots() -> [u8; ROOM]
    ensures { 65536 ≡ length result }
{
    [b'.'; ROOM]
}

// The room that the heading at `at` names, at most that of the largest buffer.
fn room_at(cases: &[u8], at: usize) -> usize
    ensures { result ≤ 65536 }
{
    let second = word_after(cases, at);
    let n = decimal_at(cases, second) as usize;
    if n < ROOM { n } else { ROOM }
}

// Prints the text in the first n bytes of the buffer, and what is to follow it.
fn print_text<W: Write>(output: &mut W, out: &[u8], n: usize, after: &[u8]) -> io::Result<()> {
    if n <= out.len() {
        if n <= WHOLE {
            print(output, &out[0..n])?;
        } else {
            print(output, b"--- its end\n")?;
            print(output, &out[n - END..n])?;
        }
        print(output, after)?;
    }
    Ok(())
}

// Prints the byte at n, if the buffer has one.
fn print_then<W: Write>(output: &mut W, out: &[u8], n: usize) -> io::Result<()> {
    if n < out.len() {
        print(output, b"--- then ")?;
        print(output, &out[n..n + 1])?;
        print(output, b"\n")?;
    }
    Ok(())
}

// Prints what an operation that writes a text answers, and what is in the buffer after it. `after` ends the text's last line, if the text does not.
fn print_written<W: Write>(
    output: &mut W,
    answer: Result<usize, Refusal>,
    out: &[u8],
    after: &[u8],
) -> io::Result<()> {
    match answer {
        Ok(n) => {
            print_number(output, b"--- length ", n as u64, b"\n")?;
            print_text(output, out, n, after)?;
            print_then(output, out, n)
        }
        Err(r) => {
            print_refusal(output, r.number(), r.place)?;
            print_then(output, out, 0)
        }
    }
}

// Writes the readings as spans, or one by one.
fn run_move<W: Write>(
    output: &mut W,
    spans: bool,
    s: &[u8],
    readings: &[u8],
    out: &mut [u8],
) -> io::Result<()> {
    if spans {
        let answer = to_spans(s, readings, out);
        print_written(output, answer, out, b"")
    } else {
        let answer = to_readings(s, readings, out);
        print_written(output, answer, out, b"")
    }
}

// Moves the readings under the heading at `at`.
fn run_moves<W: Write>(
    output: &mut W,
    spans: bool,
    s: &[u8],
    cases: &[u8],
    at: usize,
) -> io::Result<()>
    requires { at < length cases.now }
{
    let mut buffer = [0u8; TEXT_ROOM];
    let n = text_under(cases, at, &mut buffer);
    let room = room_at(cases, at + 4);
    let mut space = dots();
    run_move(output, spans, s, &buffer[..n], &mut space[0..room])
}

// Prints a rule back, and then what was written.
fn print_back<W: Write>(output: &mut W, s: &[u8], rule: usize, out: &mut [u8]) -> io::Result<()> {
    let answer = print_rule(s, rule, out);
    print_written(output, answer, out, b"\n")
}

// Prints back the rule that the heading at `at` names, into a buffer with the room that it names after it.
fn run_print<W: Write>(output: &mut W, s: &[u8], cases: &[u8], at: usize) -> io::Result<()>
    requires { at < length cases.now }
{
    let number = word_after(cases, at + 4);
    let rule = decimal_at(cases, number) as usize;
    let room = room_at(cases, number);
    let mut space = dots();
    print_back(output, s, rule, &mut space[0..room])
}

// Writes the dump of the table, and prints it.
fn print_dump<W: Write>(output: &mut W, s: &[u8], table: &[u64], out: &mut [u8]) -> io::Result<()> {
    let answer = write_dump(s, table, out);
    print_written(output, answer, out, b"")
}

// Writes the table as a dump, into a buffer with the room that the heading at `at` names.
pub fn run_dump<W: Write>(
    output: &mut W,
    s: &[u8],
    cases: &[u8],
    at: usize,
    table: &[u64],
) -> io::Result<()>
    requires { at < length cases.now }
{
    let room = room_at(cases, at + 4);
    let mut space = dots();
    print_dump(output, s, table, &mut space[0..room])
}

// Reads a dump, and prints its readings.
fn print_undump<W: Write>(output: &mut W, s: &[u8], dump: &[u8], out: &mut [u8]) -> io::Result<()> {
    let answer = read_dump(s, dump, out);
    print_written(output, answer, out, b"")
}

// Reads the dump under the heading at `at`, into a buffer with the room that the heading names.
fn run_undump<W: Write>(output: &mut W, s: &[u8], cases: &[u8], at: usize) -> io::Result<()>
    requires { at < length cases.now }
{
    let mut buffer = [0u8; TEXT_ROOM];
    let n = text_under(cases, at, &mut buffer);
    let room = room_at(cases, at + 4);
    let mut space = dots();
    print_undump(output, s, &buffer[..n], &mut space[0..room])
}

// Runs the operation of the heading at `at`, if it names one that is lent no table.
pub fn run_text<W: Write>(output: &mut W, s: &[u8], cases: &[u8], at: usize) -> io::Result<()>
    requires { at < length cases.now }
{
    if starts_at(cases, at, b"=== spans") {
        run_moves(output, true, s, cases, at)
    } else if starts_at(cases, at, b"=== singles") {
        run_moves(output, false, s, cases, at)
    } else if starts_at(cases, at, b"=== print") {
        run_print(output, s, cases, at)
    } else if starts_at(cases, at, b"=== undump") {
        run_undump(output, s, cases, at)
    } else {
        Ok(())
    }
}
