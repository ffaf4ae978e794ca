// The figures of an opened sheet: every text is checked before the first run, and the lists of parents are made once for all runs.
// Assumes that the lengths fit the texts, that the table has its length, and room for the most records.
ghost use Rattle.std.specs.Prelude.{◌≤◌, length};
ghost use Rattle.spec_limits.specs.Limits.{most_signals};
ghost use Rattle.read_names.specs.Slices.{names_of};
ghost use Rattle.list_order.specs.Order.{in_order_lem, Orderable};
ghost use Rattle.spec_figures.specs.Texts.{LengthsFit};
ghost use Rattle.figure_runs.specs.Runs.{OpenedFor, LongFor, Runnable, OfSheet, RecordRoom, FreshRecords, NamesStand, TextsRun};

use crate::runs::{Sizes, run_texts};
use close_parents::{EDGES, link_rows};
use figure_run::records::start_records;
use figure_texts::note_texts;
use list_order::signals_in_order;
use op_add::{LONG, SHORT, SMALL};
use read_index::LINKS;
use spec_limits::{ROWS, RUNS, SIGNALS};
use spec_refusals::Refusal;

// So many entries of the texts can be noted, 16 KiB of them: while those of any text find room after them, a text's entries are kept for its run.
const NOTES: usize = 4096;

// Puts a record for each signal, in the order of the names. The list `order` is as long as they are many.
fn start_by_name(s: &[u8], places: &[u16], order: &mut [u64], words: &mut [u64])
    requires { Orderable s.now places.now order.old × (length places.now ≤ most_signals) × RecordRoom words.old }
    ensures { FreshRecords (in_order_lem (names_of s places)) words.new × RecordRoom words.new }
{
    signals_in_order(s, places, order);
    start_records(order, words);
}

// Puts a record for each signal, in the order of the names.
fn start_in_order(s: &[u8], places: &[u16], words: &mut [u64])
    requires { NamesStand s.now places.now × RecordRoom words.old }
    ensures { FreshRecords (in_order_lem (names_of s places)) words.new × RecordRoom words.new }
{
    let mut order = [1u64; SIGNALS];
    let count = places.len();
    start_by_name(s, places, &mut order[..count], words);
}

// Checks each text, then makes the lists of parents and runs the texts.
fn check_and_run(
    s: &[u8],
    names: &[u16],
    rows: &[u64],
    tops: &[u16],
    z: Sizes,
    texts: &[u8],
    lengths: &[u64],
    todo: &mut [u64],
    table: &mut [u64],
    words: &mut [u64],
) -> Result<(), Refusal>
    requires runnable { Runnable s.now names.now rows.now tops.now z todo.old table.old }
    requires lengths_fit { LengthsFit lengths.now (length texts.now) × RecordRoom words.old }
    ensures { OfSheet s.now (λ k. TextsRun s.now texts.now lengths.now table.old table.new words.new k result) }
{
    let mut noted = [1u32; NOTES];
    let mut kept = [1u64; RUNS];
    note_texts(s, names, z.window, texts, lengths, &mut noted, &mut kept)?;
    start_in_order(s, &names[LINKS..], words);
    let mut heads = [0u16; ROWS];
    let mut nexts = [1u16; EDGES];
    link_rows(rows, z.count, &mut heads, &mut nexts);
    run_texts(
        s, names, rows, tops, z, texts, lengths, &noted, &kept, &heads, &nexts, todo, table, words,
    );
    Ok(())
}

// The same, with a list of work that is long enough for the table. Clearing the long one would cost a small sheet more than the rest of its closing.
pub fn run_opened(
    s: &[u8],
    names: &[u16],
    rows: &[u64],
    tops: &[u16],
    z: Sizes,
    texts: &[u8],
    lengths: &[u64],
    table: &mut [u64],
    words: &mut [u64],
) -> Result<(), Refusal>
    requires opened_for { OpenedFor s.now names.now rows.now tops.now z × LongFor z table.old }
    requires lengths_fit { LengthsFit lengths.now (length texts.now) × RecordRoom words.old }
    ensures { OfSheet s.now (λ k. TextsRun s.now texts.now lengths.now table.old table.new words.new k result) }
{
    if table.len() <= SMALL {
        let mut todo = [0u64; SHORT];
        return check_and_run(
            s, names, rows, tops, z, texts, lengths, &mut todo, table, words,
        );
    }
    let mut todo = [0u64; LONG];
    check_and_run(
        s, names, rows, tops, z, texts, lengths, &mut todo, table, words,
    )
}
