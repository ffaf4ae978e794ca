// The two moves: the sheet's and the text's refusals, then 20, or the text written. Assumes nothing.
ghost use Rattle.std.specs.Prelude.{true, false};
ghost use Rattle.read_names.specs.Spellings.{names_at};
ghost use Rattle.read_names.specs.Slices.{names_of};
ghost use Rattle.spec_moves.specs.Moves.{Moves};
ghost use Rattle.op_moves.specs.MovedText.{CanWrite, WritesMoved};
ghost use Rattle.read_index.specs.Index.{places_in, IndexOf};
ghost use Rattle.op_moves.specs.OpenedFor.{Opened};
ghost use Rattle.spec_operations.specs.WritingSays.{writing_says};

use crate::lengths::moved_length;
use crate::texts::write_moved;
use open_sheet::open_sheet;
use read_index::{INDEX, LINKS};
use read_readings::noted::ROW_SPANS;
use read_readings::whole::note_entries;
use sort_numbers::sort_below;
use spec_limits::{BYTES, READINGS, ROWS, TOPS};
use spec_refusals::{Fault, Refusal};

// Writes the text of the move, if it is short enough and there is room for it. It is measured first, so that a refusal writes nothing.
fn write_noted(
    spans: bool,
    s: &[u8],
    places: &[u16],
    noted: &mut [u32],
    out: &mut [u8],
) -> Result<usize, Refusal>
    requires { CanWrite (names_at s.now places.now) noted.old }
    ensures { WritesMoved spans (names_of s places) noted.old out.old out.new (writing_says result) }
{
    sort_below(noted, 2 * ROW_SPANS * places.len());
    let length = moved_length(spans, s, places, noted);
    if BYTES < length {
        return Err(Refusal {
            fault: Fault::Room,
            place: 0,
        });
    }
    if out.len() < length {
        return Err(Refusal {
            fault: Fault::Room,
            place: 0,
        });
    }
    write_moved(spans, s, places, noted, out);
    Ok(length)
}

// Reads the readings of an opened sheet, and writes the text of the move.
fn move_opened(
    spans: bool,
    s: &[u8],
    names: &[u16],
    window: usize,
    readings: &[u8],
    out: &mut [u8],
) -> Result<usize, Refusal>
    requires { Opened s.now (places_in names.now) window × IndexOf s.now names.now }
    ensures { Moves spans s.now readings.now out.old out.new (writing_says result) }
{
    let mut noted = [1u32; READINGS];
    let count = note_entries(s, names, window, readings, &mut noted)?;
    write_noted(spans, s, &names[LINKS..], &mut noted[..count], out)
}

// Opens the sheet, and moves the readings.
fn move_readings(spans: bool, s: &[u8], readings: &[u8], out: &mut [u8]) -> Result<usize, Refusal>
    ensures { Moves spans s.now readings.now out.old out.new (writing_says result) }
{
    let mut names = [0u16; INDEX];
    let mut rows = [8u64; ROWS];
    let mut tops = [0u16; TOPS];
    let sheet = open_sheet(s, &mut names, &mut rows, &mut tops)?;
    move_opened(
        spans,
        s,
        &names[..LINKS + sheet.signals],
        sheet.window,
        readings,
        out,
    )
}

// Writes the readings as spans.
pub fn to_spans(s: &[u8], readings: &[u8], out: &mut [u8]) -> Result<usize, Refusal>
    ensures { Moves true s.now readings.now out.old out.new (writing_says result) }
{
    move_readings(true, s, readings, out)
}

// Writes the readings one by one.
pub fn to_readings(s: &[u8], readings: &[u8], out: &mut [u8]) -> Result<usize, Refusal>
    ensures { Moves false s.now readings.now out.old out.new (writing_says result) }
{
    move_readings(false, s, readings, out)
}
