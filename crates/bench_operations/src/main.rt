// Runs one operation again and again, so that its instructions can be counted: on the sheet and the readings in the current folder, sheet.txt
// and readings.txt, as often as the first argument says. The second argument is read (the sheet's text), check (it is lowered too), take (the readings
// are taken too), add, spans or singles (the readings are moved to spans, or to single readings). Prints what the last run answered, how many marks stand
// in the table then, and the text that a move wrote.
#![tactic(auto)]

mod answers;
mod moving;
mod reading;
mod taking;

ghost use Rattle.std.specs.Prelude.{◌≤◌, length};
ghost use Rattle.table_marks.specs.Sizes.{most_table_words};

use answers::{Answer, print_answer};
use moving::{print_written, singles, spans};
use op_add::add;
use op_check::check;
use open_sheet::open_sheet;
use read_index::INDEX;
use reading::read_sheet;
use run_cases::{print_number, print_refusal};
use run_parts::{TEXT, is_asked, read_text, times_asked};
use spec_limits::{BYTES, ROWS, TOPS};
use spec_refusals::Refusal;
use std::io;
use std::io::Write;
use std::rt::Env;
use table_facts::count_facts;
use table_marks::{TABLE_WORDS, words_of};
use taking::take;

// What a run does.
#[derive(Clone, Copy)]
enum Run {
    Read,
    Check,
    Take,
    Add,
    Spans,
    Singles,
}

// Checks the sheet.
fn check_once(s: &[u8]) -> Result<Answer, Refusal> {
    let rows = check(s)?;
    Ok(Answer::Rows(rows))
}

// Takes the readings into the table, after it is emptied.
fn take_once(s: &[u8], readings: &[u8], table: &mut [u64]) -> Result<Answer, Refusal> {
    table.fill(0);
    take(s, readings, table)
}

// Adds the readings to the table, after it is emptied.
fn add_once(s: &[u8], readings: &[u8], table: &mut [u64]) -> Result<Answer, Refusal> {
    table.fill(0);
    let added = add(s, readings, table)?;
    Ok(Answer::Added {
        new: added.new,
        clash: added.clash,
    })
}

// One run.
fn run_once(
    run: Run,
    s: &[u8],
    readings: &[u8],
    table: &mut [u64],
    out: &mut [u8],
) -> Result<Answer, Refusal> {
    match run {
        Run::Read => read_sheet(s),
        Run::Check => check_once(s),
        Run::Take => take_once(s, readings, table),
        Run::Add => add_once(s, readings, table),
        Run::Spans => spans(s, readings, out),
        Run::Singles => singles(s, readings, out),
    }
}

// So many runs: what the last one answers, and nothing if there is none.
fn run_times(
    run: Run,
    s: &[u8],
    readings: &[u8],
    table: &mut [u64],
    out: &mut [u8],
    times: usize,
) -> Option<Result<Answer, Refusal>> {
    let mut last = None;
    for _ in 0..times {
        last = Some(run_once(run, s, readings, table, out));
    }
    last
}

// The words of a table for the sheet; 0 if the sheet is refused.
fn words_for(s: &[u8]) -> usize
    ensures { result ≤ most_table_words }
{
    let mut names = [0u16; INDEX];
    let mut rows = [8u64; ROWS];
    let mut tops = [0u16; TOPS];
    match open_sheet(s, &mut names, &mut rows, &mut tops) {
        Ok(sheet) => 2 * sheet.count * words_of(sheet.window),
        Err(_) => 0,
    }
}

// Prints how many marks stand in a table: the ones in its words.
fn print_marks<W: Write>(output: &mut W, table: &[u64]) -> io::Result<()>
    requires { length table.now ≤ most_table_words }
{
    let marks = count_facts(table, 1, table.len() / 2);
    print_number(output, b"marks=", marks as u64, b"\n")
}

// The run that is asked for; an add if none is.
fn run_asked(rt: &impl Env) -> Run {
    if is_asked(rt, b"read") {
        return Run::Read;
    }
    if is_asked(rt, b"check") {
        return Run::Check;
    }
    if is_asked(rt, b"take") {
        return Run::Take;
    }
    if is_asked(rt, b"spans") {
        return Run::Spans;
    }
    if is_asked(rt, b"singles") {
        return Run::Singles;
    }
    Run::Add
}

// Does what is asked for with a table and a buffer for a text, and prints it.
fn run_table<W: Write>(
    output: &mut W,
    run: Run,
    s: &[u8],
    readings: &[u8],
    table: &mut [u64],
    out: &mut [u8],
    times: usize,
) -> io::Result<()>
    requires { length table.old ≤ most_table_words }
{
    let Some(answer) = run_times(run, s, readings, table, out, times) else {
        print_refusal(output, 0, 0)?;
        return print_marks(output, table);
    };
    print_answer(output, answer)?;
    print_marks(output, table)?;
    print_written(output, answer, out)
}

// Does what is asked for with the two texts.
fn run_texts<W: Write>(output: &mut W, rt: &impl Env, s: &[u8], readings: &[u8]) -> io::Result<()> {
    let times = times_asked(rt);
    let run = run_asked(rt);
    let words = words_for(s);
    let mut table = [0u64; TABLE_WORDS];
    let mut out = [0u8; BYTES];
    run_table(
        output,
        run,
        s,
        readings,
        &mut table[..words],
        &mut out,
        times,
    )
}

fn main(rt: HostRuntime) -> io::Result<()> {
    let mut sheet = [0u8; TEXT];
    let mut readings = [0u8; TEXT];
    let a = read_text(&rt, b"sheet.txt", &mut sheet);
    let b = read_text(&rt, b"readings.txt", &mut readings);
    run_texts(&mut rt.stdout(), &rt, &sheet[..a], &readings[..b])
}
