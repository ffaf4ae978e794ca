// A run counted: the ticks at which a signal is true, false and unsettled in its closed table, and the first that is settled.
// Assumes of the table what the crate does, and of each record that one more run can be counted in it.
ghost use Rattle.std.specs.Prelude.{false, ◌≤◌};
ghost use Rattle.table_marks.specs.Sizes.{most_words};
ghost use Rattle.table_words.specs.WordTicks.{HasRow};
ghost use Rattle.figure_run.specs.RunCounts.{RowCounted, Countable, CountsRun, CanCount, RunCounted};

use crate::records::{put_record, record_in};
use spec_figures::{NO_TICK, Record};
use table_words::word_at;

// How many ticks a row is true and false at, and the first at which it is either, or NO_TICK.
#[derive(Clone, Copy)]
pub struct RowTicks {
    pub held: u64,
    pub failed: u64,
    pub first: u64,
}

// A row's ticks: the ones in its words are counted, and trailing zeros give the first. From the last word down, so that the first tick is told last.
fn row_ticks(table: &[u64], n: usize, row: usize) -> RowTicks
    requires { HasRow n table.now row × (n ≤ most_words) }
    ensures { RowCounted n table.now row result }
{
    let mut held = 0;
    let mut failed = 0;
    let mut first = NO_TICK;
    for q in (0..n).rev() {
        let yes = word_at(table, n, q, row, true);
        let no = word_at(table, n, q, row, false);
        held += yes.count_ones() as u64;
        failed += no.count_ones() as u64;
        let marked = yes | no;
        if marked != 0 {
            first = 64 * q as u64 + marked.trailing_zeros() as u64;
        }
    }
    RowTicks {
        held,
        failed,
        first,
    }
}

// The record of a signal with one more run that does not clash.
fn with_settled(r: Record, table: &[u64], n: usize, window: usize) -> Record
    requires { Countable r n window table.now false }
    ensures { CountsRun n window table.now r result }
{
    let t = row_ticks(table, n, r.signal as usize);
    Record {
        signal: r.signal,
        held: r.held + t.held,
        failed: r.failed + t.failed,
        unsettled: r.unsettled + (window as u64 - t.held - t.failed),
        clashed: r.clashed,
        first: if t.first < r.first { t.first } else { r.first },
    }
}

// The record of a signal with one more run: "a run that clashes counts its whole window in a fourth column and nothing in the other three".
fn with_run(r: Record, table: &[u64], n: usize, window: usize, clash: bool) -> Record
    requires { Countable r n window table.now clash }
    ensures { CountsRun n window table.now r result }
{
    if clash {
        Record {
            signal: r.signal,
            held: r.held,
            failed: r.failed,
            unsettled: r.unsettled,
            clashed: r.clashed + window as u64,
            first: r.first,
        }
    } else {
        with_settled(r, table, n, window)
    }
}

// Counts the run in each of the first k records.
pub fn count_run(words: &mut [u64], k: usize, table: &[u64], n: usize, window: usize, clash: bool)
    requires { CanCount k n window table.now clash words.old }
    ensures { RunCounted k n window table.now words.old words.new }
{
    for i in 0..k {
        let r = record_in(words, i);
        let v = with_run(r, table, n, window, clash);
        put_record(words, i, v);
    }
}
