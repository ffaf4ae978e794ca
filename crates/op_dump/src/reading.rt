// A dump read as readings: the sheet's refusals, the dump's line by line, then 20. Assumes nothing.
ghost use Rattle.std.specs.Prelude.{suc, ◌≤◌, length};
ghost use Rattle.spec_limits.specs.Limits.{most_ticks};
ghost use Rattle.read_index.specs.Index.{name_count, names_in, IndexOf};
ghost use Rattle.spec_operations.specs.WritingSays.{writing_says};
ghost use Rattle.spec_operations.specs.TextAnswers.{Gives};
ghost use Rattle.spec_dump.specs.DumpLines.{events_from, events};
ghost use Rattle.spec_dump.specs.Dumps.{readings_of, ReadsDump};

use dump_lines::head::head_lines;
use dump_readings::take_events;
use open_sheet::open_sheet;
use read_index::{INDEX, LINKS};
use spec_limits::{ROWS, SIGNALS, TOPS};
use spec_refusals::{Fault, Refusal};

// Writes the readings of the events from `p` on, if there is room for them. They are measured first, so that a refusal writes nothing.
fn read_events(
    s: &[u8],
    names: &[u16],
    window: usize,
    d: &[u8],
    p: usize,
    out: &mut [u8],
) -> Result<usize, Refusal>
    requires { IndexOf s.now names.now × (1 ≤ window) × (window ≤ most_ticks) × (p ≤ length d.now) }
    ensures { Gives (readings_of (names_in s.now names.now) window (length out.old) (events_from window (name_count names.now) d.now (suc (length d.now)) 0 0 p)) out.old out.new (writing_says result) }
{
    let mut none = [0u8; 0];
    let mut signs = [b'x'; SIGNALS];
    let long = take_events(s, names, window, d, p, &mut signs, &mut none)?;
    if out.len() < long {
        return Err(Refusal {
            fault: Fault::Room,
            place: 0,
        });
    }
    let mut again = [b'x'; SIGNALS];
    take_events(s, names, window, d, p, &mut again, out)
}

// Reads the dump of an opened sheet.
fn read_opened(
    s: &[u8],
    names: &[u16],
    window: usize,
    d: &[u8],
    out: &mut [u8],
) -> Result<usize, Refusal>
    requires { IndexOf s.now names.now × (1 ≤ window) × (window ≤ most_ticks) }
    ensures { Gives (readings_of (names_in s.now names.now) window (length out.old) (events (names_in s.now names.now) window d.now)) out.old out.new (writing_says result) }
{
    let p = head_lines(s, names, d)?;
    read_events(s, names, window, d, p, out)
}

// Writes the readings of a dump.
pub fn read_dump(s: &[u8], d: &[u8], out: &mut [u8]) -> Result<usize, Refusal>
    ensures { ReadsDump s.now d.now out.old out.new (writing_says result) }
{
    let mut names = [0u16; INDEX];
    let mut rows = [8u64; ROWS];
    let mut tops = [0u16; TOPS];
    let sheet = open_sheet(s, &mut names, &mut rows, &mut tops)?;
    read_opened(s, &names[..LINKS + sheet.signals], sheet.window, d, out)
}
