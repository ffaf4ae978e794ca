// Runs check, add, ask, the moves, printing a rule, dumps, captions and figures on a table of cases and prints each case with its answer. Assumes nothing of the cases, which are on standard input.
// A heading says what is run, then what it shows: `=== sheet` with the sheet for what follows; `=== table N` with the table for what follows,
// of N words, all 0 but those of its lines `I W`; `=== check`; `=== add` with the readings; `=== ask X T`; `=== spans N` and `=== singles N` with the
// readings, moved into a buffer of N bytes that is full of dots; `=== print R N`, which prints rule R back into such a buffer. `--- then` has the buffer's first byte
// that was not written, if there is one. `=== dump N` writes the table as a dump into such a buffer, and `=== undump N` reads the dump under it.
// `=== caption X` with the captions, of which it shows signal X: where the part stands, and its bytes.
// `=== figures M N ..:` with the joined readings texts, of N bytes each, for M records; the table is the work table.
#![tactic(auto)]

mod captions;
mod figures;
mod numbers;
mod texts;
mod words;

ghost use Rattle.std.specs.Prelude.{◌≡◌, ◌<◌, ◌≤◌, length};
ghost use Rattle.run_parts.specs.Prefixes.{IsPrefixLen};
ghost use Rattle.spec_limits.specs.Limits.{most_listed_words};

use captions::run_caption;
use figures::run_figures;
use numbers::{decimal_at, next_word};
use op_add::add;
use op_ask::ask;
use op_check::check;
use read_bytes::bytes::starts_at;
use run_cases::{TEXT_ROOM, heading, next_line, print, print_number, print_refusal, text_under};
use run_parts::read_full;
use spec_limits::LISTED_WORDS;
use std::io;
use std::io::Write;
use table_marks::Value;
use texts::{run_dump, run_text};
use words::print_words;

// The most bytes of a table of cases.
const CASES: usize = 131072;

// Sets a word of the table as the line at `at` says, where there is such a word.
fn set_word(cases: &[u8], at: usize, words: &mut [u64]) {
    let i = decimal_at(cases, at) as usize;
    let second = next_word(cases, at);
    let w = decimal_at(cases, second);
    if i < words.len() {
        words[i] = w;
    }
}

// The words that the lines from `from` to `to` give.
fn words_from(cases: &[u8], from: usize, to: usize) -> [u64; LISTED_WORDS]
    requires { to ≤ length cases.now }
    ensures { most_listed_words ≡ length result }
{
    let mut words = [0u64; LISTED_WORDS];
    let mut p = from;
    while p < to {
        set_word(cases, p, &mut words);
        p = next_line(cases, p);
    }
    words
}

// How many words the table of the heading at `at` has, at most as many as a table that is listed.
fn length_at(cases: &[u8], at: usize) -> usize
    ensures { result ≤ most_listed_words }
{
    let second = next_word(cases, at);
    let n = decimal_at(cases, second) as usize;
    if n < LISTED_WORDS { n } else { LISTED_WORDS }
}

// Checks the sheet.
fn run_check<W: Write>(output: &mut W, s: &[u8]) -> io::Result<()> {
    match check(s) {
        Ok(n) => print_number(output, b"--- rows ", n as u64, b"\n"),
        Err(r) => print_refusal(output, r.number(), r.place),
    }
}

// Adds the readings under the heading at `at`, and prints the table after it.
fn run_add<W: Write>(
    output: &mut W,
    s: &[u8],
    cases: &[u8],
    at: usize,
    words: &mut [u64],
) -> io::Result<()>
    requires { at < length cases.now }
{
    let mut buffer = [0u8; TEXT_ROOM];
    let n = text_under(cases, at, &mut buffer);
    match add(s, &buffer[..n], words) {
        Ok(added) => {
            print_number(output, b"--- new facts ", added.new as u64, b", clash ")?;
            print_number(output, b"", added.clash as u64, b"\n")?;
        }
        Err(r) => print_refusal(output, r.number(), r.place)?,
    }
    print_words(output, words)
}

// Prints what a cell says.
fn print_value<W: Write>(output: &mut W, v: Value) -> io::Result<()> {
    match v {
        Value::Unsettled => print(output, b"--- unsettled\n"),
        Value::True => print(output, b"--- true\n"),
        Value::False => print(output, b"--- false\n"),
        Value::Contradiction => print(output, b"--- contradiction\n"),
    }
}

// Asks for the cell that the heading names, whose numbers start at `at`.
fn run_ask<W: Write>(
    output: &mut W,
    s: &[u8],
    cases: &[u8],
    at: usize,
    words: &[u64],
) -> io::Result<()> {
    let signal = decimal_at(cases, at) as usize;
    let second = next_word(cases, at);
    let tick = decimal_at(cases, second) as usize;
    match ask(s, words, signal, tick) {
        Ok(v) => print_value(output, v),
        Err(r) => print_refusal(output, r.number(), r.place),
    }
}

// Runs the operation of the heading at `at`, if it names one, on the sheet under the heading at `above` and the first `used` words.
fn run_operation<W: Write>(
    output: &mut W,
    cases: &[u8],
    above: usize,
    at: usize,
    words: &mut [u64],
    used: usize,
) -> io::Result<()>
    requires { (above < length cases.now) × (at < length cases.now) × IsPrefixLen used words.old }
{
    let mut lines = [0u8; TEXT_ROOM];
    let n = text_under(cases, above, &mut lines);
    let s = &lines[..n];
    if starts_at(cases, at, b"=== check") {
        run_check(output, s)
    } else if starts_at(cases, at, b"=== add") {
        run_add(output, s, cases, at, &mut words[..used])
    } else if starts_at(cases, at, b"=== ask") {
        run_ask(output, s, cases, at + 8, &words[..used])
    } else if starts_at(cases, at, b"=== figures") {
        run_figures(output, s, cases, at, &mut words[..used])
    } else if starts_at(cases, at, b"=== dump") {
        run_dump(output, s, cases, at, &words[..used])
    } else if starts_at(cases, at, b"=== caption") {
        run_caption(output, s, cases, at)
    } else {
        run_text(output, s, cases, at)
    }
}

// Runs each case.
fn run_all<W: Write>(output: &mut W, cases: &[u8]) -> io::Result<()> {
    let mut words = [0u64; LISTED_WORDS];
    let mut used = 0;
    let mut above = 0;
    let mut at = heading(cases, 0);
    while at < cases.len() {
        let line = next_line(cases, at);
        let end = heading(cases, line);
        print(output, &cases[at..end])?;
        if starts_at(cases, at, b"=== sheet") {
            above = at;
        } else if starts_at(cases, at, b"=== table") {
            words = words_from(cases, line, end);
            used = length_at(cases, at + 4);
        } else {
            run_operation(output, cases, above, at, &mut words, used)?;
        }
        at = end;
    }
    Ok(())
}

fn main(rt: HostRuntime) -> io::Result<()> {
    let mut cases = [0u8; CASES];
    let n = read_full(&mut rt.stdin(), &mut cases);
    run_all(&mut rt.stdout(), &cases[..n])
}
