// One run after the other: the work table is cleared, a text's readings are put, the table is closed, and its figures are counted.
// Assumes that the sheet is opened, that its lists of parents are made, that the table has its length, and that every text was accepted.
ghost use Rattle.std.specs.Prelude.{◌≡◌, List, ℕ, length};
ghost use Rattle.spec_tilco.specs.Inference.{Mark};
ghost use Rattle.read_bytes.specs.Read.Read.{got};
ghost use Rattle.read_index.specs.Index.{names_in};
ghost use Rattle.table_marks.specs.Puts.{Puts};
ghost use Rattle.close_parents.specs.Links.{Linked};
ghost use Rattle.read_readings.specs.Readings.{readings};
ghost use Rattle.read_readings.specs.TakeReadings.{CanTake};
ghost use Rattle.figure_texts.specs.Notes.{NotesAt};
ghost use Rattle.figure_runs.specs.Runs.{Runnable, AllRunnable, OfSheet, Holds, RunsText, AllHold, RunsTexts};

use close_table::tops::close_linked_with_tops;
use figure_run::counts::count_run;
use read_index::LINKS;
use read_readings::noted::put_noted;
use read_readings::whole::take_readings;
use table_facts::clash_in;

// What a sheet comes to: its window, the words that a row has for each value, and how many rows and top rows it has.
#[derive(Clone, Copy)]
pub struct Sizes {
    pub window: usize,
    pub n: usize,
    pub count: usize,
    pub tops: usize,
}

// Puts the readings of an accepted text into the table: as they were noted or, where its notes were not kept, by reading it again.
fn put_text(
    s: &[u8],
    names: &[u16],
    window: usize,
    n: usize,
    text: &[u8],
    notes: &[u32],
    table: &mut [u64],
)
    requires { CanTake s.now names.now window n table.old × NotesAt (names_in s.now names.now) window text.now notes.now 0 (length notes.now) }
    ensures { (ms : List Mark) (q : ℕ) → readings (names_in s.now names.now) window text.now ≡ got ms q → Puts n ms table.old table.new }
{
    if 0 < notes.len() {
        put_noted(notes, notes.len(), n, table);
    } else {
        let _ = take_readings(s, names, window, n, text, table);
    }
}

// Runs a text: the table is cleared, and then has what the rules lead to from the text's readings. Does it clash?
fn run_text(
    s: &[u8],
    names: &[u16],
    rows: &[u64],
    tops: &[u16],
    z: Sizes,
    text: &[u8],
    notes: &[u32],
    heads: &[u16],
    nexts: &[u16],
    todo: &mut [u64],
    table: &mut [u64],
) -> bool
    requires runnable { Runnable s.now names.now rows.now tops.now z todo.old table.old × Linked z.count rows.now heads.now nexts.now }
    requires notes_at { NotesAt (names_in s.now names.now) z.window text.now notes.now 0 (length notes.now) }
    requires of_sheet { OfSheet s.now (λ k. (ms : List Mark) × Holds s.now text.now k ms) }
    ensures { RunsText s.now text.now table.new result }
{
    table.fill(0);
    put_text(s, names, z.window, z.n, text, notes, table);
    close_linked_with_tops(
        rows, z.count, tops, z.tops, z.n, z.window, heads, nexts, todo, table,
    );
    clash_in(table, z.count, z.n)
}

// Runs each text, and counts its run in the signals' records. Without a text the table is cleared.
pub fn run_texts(
    s: &[u8],
    names: &[u16],
    rows: &[u64],
    tops: &[u16],
    z: Sizes,
    texts: &[u8],
    lengths: &[u64],
    noted: &[u32],
    kept: &[u64],
    heads: &[u16],
    nexts: &[u16],
    todo: &mut [u64],
    table: &mut [u64],
    words: &mut [u64],
)
    requires { AllRunnable s.now names.now rows.now tops.now z texts.now lengths.now noted.now kept.now heads.now nexts.now todo.old table.old words.old }
    ensures { OfSheet s.now (λ k. (mss : List (List Mark)) → AllHold s.now texts.now lengths.now k mss → RunsTexts s.now mss table.new words.new k) }
{
    let signals = names.len() - LINKS;
    if lengths.len() == 0 {
        return table.fill(0);
    }
    let mut at = 0;
    let mut start = 0;
    for i in 0..lengths.len() {
        let end = at + lengths[i] as usize;
        let last = start + kept[i] as usize;
        let clash = run_text(
            s,
            names,
            rows,
            tops,
            z,
            &texts[at..end],
            &noted[start..last],
            heads,
            nexts,
            todo,
            table,
        );
        count_run(words, signals, table, z.n, z.window, clash);
        at = end;
        start = last;
    }
}
