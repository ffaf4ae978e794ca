// The text that a move writes, from spans noted as numbers in ascending order. Assumes that the numbers are of the signals' rows, and that the places
// of the text can be counted.
ghost use Rattle.std.specs.Prelude.{false};
ghost use Rattle.read_names.specs.Spellings.{names_at};
ghost use Rattle.read_names.specs.Slices.{names_of};
ghost use Rattle.read_reading.specs.Spans.{span};
ghost use Rattle.join_spans.specs.Joining.{singles};
ghost use Rattle.join_spans.specs.Runs.{in_row};
ghost use Rattle.write_bytes.specs.Writes.{Counted, Wrote};
ghost use Rattle.write_bytes.specs.Writers.{Writes};
ghost use Rattle.write_readings.specs.EntryTexts.{entries_text};
ghost use Rattle.op_moves.specs.MovedText.{Writable, CanWrite, run_entries, moved_text};

use join_spans::{Run, run_from};
use write_bytes::Writer;
use write_readings::write_entry;

// The readings of a row's span, one a tick.
fn write_singles(
    w: &mut Writer,
    s: &[u8],
    places: &[u16],
    signal: usize,
    value: bool,
    first: usize,
    last: usize,
)
    requires { Writable (names_at s.now places.now) (span signal value first last) × Counted w.old.used (entries_text false (names_at s.now places.now) (singles (span signal value first last))) }
    ensures { Writes (entries_text false (names_of s places) (singles (span signal value first last))) w.old w.new }
{
    for tick in first..last + 1 {
        write_entry(w, false, s, places, signal, value, tick, tick);
    }
}

// The entries of a joined span: itself, or its readings.
fn write_run(
    w: &mut Writer,
    spans: bool,
    s: &[u8],
    places: &[u16],
    row: usize,
    first: usize,
    last: usize,
)
    requires { Writable (names_at s.now places.now) (in_row row first last) × Counted w.old.used (entries_text spans (names_at s.now places.now) (run_entries spans (in_row row first last))) }
    ensures { Writes (entries_text spans (names_of s places) (run_entries spans (in_row row first last))) w.old w.new }
{
    let signal = row / 2;
    let value = row % 2 == 1;
    if spans {
        write_entry(w, true, s, places, signal, value, first, last);
    } else {
        write_singles(w, s, places, signal, value, first, last);
    }
}

// The text of the move: the joined spans of the numbers, one after the other.
pub fn write_moved(spans: bool, s: &[u8], places: &[u16], noted: &[u32], out: &mut [u8]) -> usize
    requires { CanWrite (names_at s.now places.now) noted.now × Counted 0 (moved_text spans (names_at s.now places.now) noted.now) }
    ensures { Wrote (moved_text spans (names_of s places) noted.now) 0 out.old out.new result }
{
    let mut w = Writer::new(out);
    let mut i = 0;
    while i < noted.len() {
        let Run {
            row,
            first,
            last,
            next,
        } = run_from(noted, i);
        write_run(&mut w, spans, s, places, row, first, last);
        i = next;
    }
    w.length()
}
