// The readings of a whole text: it is read once, and no mark is put before all are accepted. Assumes nothing of the text.
ghost use Rattle.std.specs.Prelude.{◌≡◌, ℕ, length};
ghost use Rattle.read_index.specs.Index.{names_in};
ghost use Rattle.read_readings.specs.Readings.{entries, readings};
ghost use Rattle.read_readings.specs.SpanNumbers.{CanNote, EntriesNoted};
ghost use Rattle.read_readings.specs.TakeReadings.{CanTake, ReadingsTaken};

use crate::noted::{number_of, put_noted};
use read_bytes::bytes::starts_at;
use read_reading::entry_at;
use spec_limits::{BYTES, READINGS};
use spec_refusals::{Fault, Refusal};

// Notes each entry of the text, up to its end: how many there are.
pub fn note_entries(
    s: &[u8],
    names: &[u16],
    window: usize,
    r: &[u8],
    noted: &mut [u32],
) -> Result<usize, Refusal>
    requires { CanNote s.now names.now window noted.old }
    ensures { EntriesNoted (entries (names_in s.now names.now) window r.now) (length r.now) noted.new result }
{
    if BYTES < r.len() {
        return Err(Refusal {
            fault: Fault::ReadingsLength,
            place: 0,
        });
    }
    let spans = starts_at(r, 0, b"from=");
    let mut count = 0;
    let mut at = 0;
    while at < r.len() {
        let entry = entry_at(spans, s, names, window, r, at)?;
        noted[count] = number_of(entry.signal, entry.value, entry.first, entry.last);
        count += 1;
        at = entry.next;
    }
    Ok(count)
}

// Takes the readings of the text into the table; at a refusal the table keeps every word.
// An entry has at least 22 bytes, so a text of 32,768 bytes has at most 1,489. The array starts as ones, which vector stores write: noughts would be
// written by `memset`, a byte an instruction as docs/BENCHMARKS.md counts them.
pub fn take_readings(
    s: &[u8],
    names: &[u16],
    window: usize,
    n: usize,
    r: &[u8],
    table: &mut [u64],
) -> Result<(), Refusal>
    requires { CanTake s.now names.now window n table.old }
    ensures { ReadingsTaken (readings (names_in s.now names.now) window r.now) n table.old table.new result }
{
    let mut noted = [1u32; READINGS];
    let count = note_entries(s, names, window, r, &mut noted)?;
    put_noted(&noted, count, n, table);
    Ok(())
}
