// Records as words, six each, for functions that are lent words. Assumes that there are words for each record.
ghost use Rattle.std.specs.Prelude.{◌≡◌, ◌+◌, ◌*◌, ◌^◌, ◌<◌, ◌≤◌, length};
ghost use Rattle.figure_run.specs.RecordWords.{record_words, record_in, no_runs, PutsRecord, Started};

use spec_figures::{NO_TICK, Record};

// record_words: of each record.
pub const RECORD_WORDS: usize = 6;

// Record i.
pub fn record_in(words: &[u64], i: usize) -> Record
    requires { (record_words * (i + 1) ≤ length words.now) × (record_words * (i + 1) < 2 ^ 64) }
    ensures { result ≡ record_in words.now i }
{
    let at = RECORD_WORDS * i;
    Record {
        signal: words[at],
        held: words[at + 1],
        failed: words[at + 2],
        unsettled: words[at + 3],
        clashed: words[at + 4],
        first: words[at + 5],
    }
}

// Puts record i.
pub fn put_record(words: &mut [u64], i: usize, r: Record)
    requires { (record_words * (i + 1) ≤ length words.old) × (record_words * (i + 1) < 2 ^ 64) }
    ensures { PutsRecord i r words.old words.new }
{
    let at = RECORD_WORDS * i;
    words[at] = r.signal;
    words[at + 1] = r.held;
    words[at + 2] = r.failed;
    words[at + 3] = r.unsettled;
    words[at + 4] = r.clashed;
    words[at + 5] = r.first;
}

// The record of a signal before the first run.
fn no_runs(signal: u64) -> Record
    ensures { result ≡ no_runs signal }
{
    Record {
        signal,
        held: 0,
        failed: 0,
        unsettled: 0,
        clashed: 0,
        first: NO_TICK,
    }
}

// Puts the record of each of these signals before the first run.
pub fn start_records(signals: &[u64], words: &mut [u64])
    requires { (record_words * length signals.now ≤ length words.old) × (record_words * length signals.now < 2 ^ 64) }
    ensures { Started signals.now words.old words.new }
{
    for (i, x) in signals.iter().enumerate() {
        put_record(words, i, no_runs(*x));
    }
}
