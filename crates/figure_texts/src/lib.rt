// Readings texts joined in one slice: whether their lengths fit it, and their entries noted before the first run. Assumes nothing of the texts.
#![tactic(auto)]

ghost use Rattle.std.specs.Prelude.{◌≡◌, true, ◌↔◌, ◌≤◌, length};
ghost use Rattle.spec_limits.specs.Limits.{most_readings};
ghost use Rattle.read_index.specs.Index.{names_in};
ghost use Rattle.read_readings.specs.SpanNumbers.{CanNote};
ghost use Rattle.spec_figures.specs.Texts.{LengthsFit};
ghost use Rattle.figure_texts.specs.Notes.{Keeps, TextsNoted};

use read_readings::whole::note_entries;
use spec_limits::{READINGS, RUNS};
use spec_refusals::Refusal;

// Do the lengths fit a slice of m bytes? Each is taken off what is left, so that no sum wraps.
pub fn lengths_fit(lengths: &[u64], m: usize) -> bool
    ensures { (result ≡ true) ↔ LengthsFit lengths.now m }
{
    if RUNS < lengths.len() {
        return false;
    }
    let mut left = m as u64;
    for length in lengths {
        if left < *length {
            return false;
        }
        left -= *length;
    }
    left == 0
}

// How many of a text's notes are kept, where the array has `room` places for them: all if the entries of any text have places after them, or none.
fn kept_of(count: usize, room: usize) -> usize
    requires { (count ≤ room) × (most_readings ≤ room) }
    ensures { Keeps count room result }
{
    if READINGS <= room - count { count } else { 0 }
}

// Reads each text in turn, and notes its entries after those that are kept. `kept` is how many of each text's notes are kept: all or none.
pub fn note_texts(
    s: &[u8],
    names: &[u16],
    window: usize,
    texts: &[u8],
    lengths: &[u64],
    noted: &mut [u32],
    kept: &mut [u64],
) -> Result<(), Refusal>
    requires can_note { CanNote s.now names.now window noted.old × LengthsFit lengths.now (length texts.now) }
    requires lengths_in_bounds { length lengths.now ≤ length kept.old }
    ensures { TextsNoted (names_in s.now names.now) window lengths.now texts.now noted.new kept.new result }
{
    let mut at = 0;
    let mut used = 0;
    for i in 0..lengths.len() {
        let end = at + lengths[i] as usize;
        match note_entries(s, names, window, &texts[at..end], &mut noted[used..]) {
            Ok(count) => {
                let k = kept_of(count, noted.len() - used);
                kept[i] = k as u64;
                used += k;
            }
            Err(refusal) => {
                return Err(Refusal {
                    fault: refusal.fault,
                    place: at + refusal.place,
                });
            }
        }
        at = end;
    }
    Ok(())
}
