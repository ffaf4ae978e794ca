// Runs figures on the texts under a heading, and prints each record. Assumes nothing of the cases.
ghost use Rattle.std.specs.Prelude.{◌<◌, length};
ghost use Rattle.run_parts.specs.Prefixes.{IsPrefixLen};
ghost use Rattle.figure_runs.specs.Runs.{RecordRoom};

use crate::numbers::{decimal_at, next_word, word_after};
use crate::words::print_words;
use figure_run::records::{RECORD_WORDS, record_in};
use figure_runs::whole::figures_in_words;
use read_bytes::bytes::byte_at;
use run_cases::{TEXT_ROOM, print, print_number, print_refusal, text_under};
use spec_figures::{NO_TICK, Record};
use spec_limits::SIGNALS;
use std::io;
use std::io::Write;

// The most lengths that a heading can have.
const LENGTHS: usize = 72;

// Does a number start at `at`?
fn digit_at(cases: &[u8], at: usize) -> bool {
    byte_at(cases, at).is_ascii_digit()
}

// The numbers of the heading from `at` on, as far as there is room: how many.
fn numbers_from(cases: &[u8], at: usize, out: &mut [u64]) -> usize
    ensures { IsPrefixLen result out.new }
{
    let mut p = at;
    for n in 0..out.len() {
        if !digit_at(cases, p) {
            return n;
        }
        out[n] = decimal_at(cases, p);
        p = next_word(cases, p);
    }
    out.len()
}

// Prints a record's first settled tick.
fn print_first<W: Write>(output: &mut W, first: u64) -> io::Result<()> {
    if first == NO_TICK {
        print(output, b"none\n")
    } else {
        print_number(output, b"", first, b"\n")
    }
}

// Prints a record.
fn print_record<W: Write>(output: &mut W, r: Record) -> io::Result<()> {
    print_number(output, b"--- signal ", r.signal, b", true ")?;
    print_number(output, b"", r.held, b", false ")?;
    print_number(output, b"", r.failed, b", unsettled ")?;
    print_number(output, b"", r.unsettled, b", clashing ")?;
    print_number(output, b"", r.clashed, b", first ")?;
    print_first(output, r.first)
}

// Prints the first m records, at most as many as a sheet can have signals.
fn print_records<W: Write>(output: &mut W, records: &[u64], m: usize) -> io::Result<()>
    requires { RecordRoom records.now }
{
    for i in 0..SIGNALS {
        if i < m {
            print_record(output, record_in(records, i))?;
        }
    }
    Ok(())
}

// Runs the texts, and prints the records, or the refusal, and the work table after it.
fn run_texts<W: Write>(
    output: &mut W,
    s: &[u8],
    texts: &[u8],
    lengths: &[u64],
    m: usize,
    words: &mut [u64],
) -> io::Result<()> {
    let mut records = [0u64; RECORD_WORDS * SIGNALS];
    match figures_in_words(s, texts, lengths, m, words, &mut records) {
        Ok(()) => print_records(output, &records, m)?,
        Err(r) => print_refusal(output, r.number(), r.place)?,
    }
    print_words(output, words)
}

// Runs the texts under the heading at `at`, which has how many records are asked for, and the length of each text.
pub fn run_figures<W: Write>(
    output: &mut W,
    s: &[u8],
    cases: &[u8],
    at: usize,
    words: &mut [u64],
) -> io::Result<()>
    requires { at < length cases.now }
{
    let mut buffer = [0u8; TEXT_ROOM];
    let n = text_under(cases, at, &mut buffer);
    let first = word_after(cases, at + 4);
    let m = decimal_at(cases, first) as usize;
    let second = next_word(cases, first);
    let mut lengths = [0u64; LENGTHS];
    let k = numbers_from(cases, second, &mut lengths);
    run_texts(output, s, &buffer[..n], &lengths[..k], m, words)
}
