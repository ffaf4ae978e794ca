// Runs the readers and the listing on a table of cases and prints each text with its answer. Assumes nothing of the cases, which are on standard input.
// A text stands under a heading: `=== sheet`, `=== readings`, `=== list`, `=== captions` or `=== house`, then what it shows. Readings are read against the sheet
// before them; under `=== list` they are listed with it, and under `=== house` with the captions before them too.
#![tactic(auto)]

ghost use Rattle.std.specs.Prelude.{◌<◌, length};

use list_captioned::settle_captioned;
use list_settled::settle;
use op_check::check;
use read_bytes::bytes::starts_at;
use read_head::head;
use read_index::{INDEX, LINKS};
use read_readings::whole::take_readings;
use run_cases::{TEXT_ROOM, heading, next_line, print, print_number, print_refusal, text_under};
use run_parts::read_full;
use spec_limits::{BYTES, CAPTIONED, LISTED, LISTED_WORDS, SIGNALS};
use std::io;
use std::io::Write;
use table_marks::WORDS;

// The words of the most signals' rows in the widest window.
const SIGNAL_WORDS: usize = 2 * SIGNALS * WORDS;

// Checks the sheet under the heading at `at`.
fn run_sheet<W: Write>(output: &mut W, cases: &[u8], at: usize) -> io::Result<()>
    requires { at < length cases.now }
{
    let mut buffer = [0u8; TEXT_ROOM];
    let n = text_under(cases, at, &mut buffer);
    match check(&buffer[..n]) {
        Ok(rows) => print_number(output, b"--- accepted, rows: ", rows as u64, b"\n"),
        Err(r) => print_refusal(output, r.number(), r.place),
    }
}

// Reads the readings under the heading at `at`, against the head of the sheet under that at `above`, into a table of
// the signals' rows alone, as wide as any.
fn run_readings<W: Write>(output: &mut W, cases: &[u8], above: usize, at: usize) -> io::Result<()>
    requires { (above < length cases.now) × (at < length cases.now) }
{
    let mut lines = [0u8; TEXT_ROOM];
    let n = text_under(cases, above, &mut lines);
    let mut buffer = [0u8; TEXT_ROOM];
    let m = text_under(cases, at, &mut buffer);
    if BYTES < n {
        return print(output, b"--- no sheet\n");
    }
    let mut names = [0u16; INDEX];
    let s = &lines[..n];
    let Ok(head) = head(s, &mut names) else {
        return print(output, b"--- no sheet\n");
    };
    let mut table = [0u64; SIGNAL_WORDS];
    let answer = take_readings(
        s,
        &names[..LINKS + head.signals],
        head.window,
        WORDS,
        &buffer[..m],
        &mut table,
    );
    match answer {
        Ok(()) => print(output, b"--- accepted\n"),
        Err(r) => print_refusal(output, r.number(), r.place),
    }
}

// Lists the readings under the heading at `at` with the sheet under that at `above`. The table lent is as long as the listing program's, and empty.
fn run_list<W: Write>(output: &mut W, cases: &[u8], above: usize, at: usize) -> io::Result<()>
    requires { (above < length cases.now) × (at < length cases.now) }
{
    let mut lines = [0u8; TEXT_ROOM];
    let n = text_under(cases, above, &mut lines);
    let mut buffer = [0u8; TEXT_ROOM];
    let m = text_under(cases, at, &mut buffer);
    let mut table = [0u64; LISTED_WORDS];
    let mut out = [0u8; LISTED];
    let end = settle(&lines[..n], &buffer[..m], &mut table, &mut out);
    print(output, &out[..end])
}

// The same with the captions under the heading at `house`.
fn run_house<W: Write>(
    output: &mut W,
    cases: &[u8],
    above: usize,
    house: usize,
    at: usize,
) -> io::Result<()>
    requires { (above < length cases.now) × (house < length cases.now) × (at < length cases.now) }
{
    let mut lines = [0u8; TEXT_ROOM];
    let n = text_under(cases, above, &mut lines);
    let mut words = [0u8; TEXT_ROOM];
    let k = text_under(cases, house, &mut words);
    let mut buffer = [0u8; TEXT_ROOM];
    let m = text_under(cases, at, &mut buffer);
    let mut table = [0u64; LISTED_WORDS];
    let mut out = [0u8; CAPTIONED];
    let end = settle_captioned(&lines[..n], &buffer[..m], &words[..k], &mut table, &mut out);
    print(output, &out[..end])
}

// Runs each case.
fn run_all<W: Write>(output: &mut W, cases: &[u8]) -> io::Result<()> {
    let mut above = 0;
    let mut house = 0;
    let mut at = heading(cases, 0);
    while at < cases.len() {
        let line = next_line(cases, at);
        let end = heading(cases, line);
        print(output, &cases[at..end])?;
        if starts_at(cases, at, b"=== sheet") {
            above = at;
            run_sheet(output, cases, at)?;
        } else if starts_at(cases, at, b"=== captions") {
            house = at;
        } else if starts_at(cases, at, b"=== list") {
            run_list(output, cases, above, at)?;
        } else if starts_at(cases, at, b"=== house") {
            run_house(output, cases, above, house, at)?;
        } else {
            run_readings(output, cases, above, at)?;
        }
        at = end;
    }
    Ok(())
}

fn main(rt: HostRuntime) -> io::Result<()> {
    let mut cases = [0u8; TEXT_ROOM];
    let n = read_full(&mut rt.stdin(), &mut cases);
    run_all(&mut rt.stdout(), &cases[..n])
}
