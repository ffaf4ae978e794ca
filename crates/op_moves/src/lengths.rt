// How long the text of a move is. Each function stops once the text has passed 32,768 bytes: a longer one is refused, and how long it would be is not asked.
// Assumes that the numbers are of the signals' rows, and that the names are short.
ghost use Rattle.std.specs.Prelude.{◌+◌, ◌<◌, ◌≤◌, length};
ghost use Rattle.read_names.specs.Spellings.{names_at};
ghost use Rattle.read_names.specs.Slices.{names_of};
ghost use Rattle.spec_limits.specs.Limits.{most_bytes, most_ticks, most_name_bytes};
ghost use Rattle.join_spans.specs.Runs.{in_row};
ghost use Rattle.write_readings.specs.EntryTexts.{entries_text};
ghost use Rattle.op_moves.specs.Measures.{Measures};
ghost use Rattle.op_moves.specs.MovedText.{Writable, SinglesLong, CanWrite, run_entries, moved_text};

use join_spans::{Run, run_from};
use spec_limits::BYTES;
use write_readings::{entry_length, name_length};

// Where the readings of a row's span, one a tick, end if they start at `used`: their signal's name has `name` bytes.
fn singles_length(name: usize, first: usize, last: usize, used: usize) -> usize
    requires { (name ≤ most_name_bytes) × (last < most_ticks) × (used ≤ most_bytes) }
    ensures { SinglesLong name first last used result }
{
    let mut at = used;
    for tick in first..last + 1 {
        if BYTES < at {
            return at;
        }
        at += entry_length(false, name, tick, tick);
    }
    at
}

// Where the entries of a joined span end if they start at `used`.
fn run_length(
    spans: bool,
    s: &[u8],
    places: &[u16],
    row: usize,
    first: usize,
    last: usize,
    used: usize,
) -> usize
    requires { Writable (names_at s.now places.now) (in_row row first last) × (used ≤ most_bytes) }
    ensures { Measures most_bytes (used + length (entries_text spans (names_of s places) (run_entries spans (in_row row first last)))) result }
{
    let name = name_length(s, places, row / 2);
    if spans {
        used + entry_length(true, name, first, last)
    } else {
        singles_length(name, first, last, used)
    }
}

// How long the text of the move is, or that it is over 32,768 bytes: the lengths of its entries, added up.
pub fn moved_length(spans: bool, s: &[u8], places: &[u16], noted: &[u32]) -> usize
    requires { CanWrite (names_at s.now places.now) noted.now }
    ensures { Measures most_bytes (length (moved_text spans (names_of s places) noted.now)) result }
{
    let mut at = 0;
    let mut i = 0;
    while i < noted.len() {
        if BYTES < at {
            return at;
        }
        let Run {
            row,
            first,
            last,
            next,
        } = run_from(noted, i);
        at = run_length(spans, s, places, row, first, last, at);
        i = next;
    }
    at
}
