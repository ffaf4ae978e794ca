// A table written as a dump: the sheet's and the table's refusals, then 23 for a clash, then 20. Assumes nothing.
ghost use Rattle.std.specs.Prelude.{length};
ghost use Rattle.read_names.specs.Spellings.{names_at};
ghost use Rattle.read_names.specs.Slices.{names_of};
ghost use Rattle.spec_operations.specs.WritingSays.{writing_says};
ghost use Rattle.spec_operations.specs.TextAnswers.{Gives};
ghost use Rattle.spec_dump.specs.DumpTexts.{dump_text};
ghost use Rattle.spec_dump.specs.TableSigns.{sign_events};
ghost use Rattle.spec_dump.specs.Dumps.{with_room, WritesDump};
ghost use Rattle.dump_changes.specs.WordSigns.{row_sign};
ghost use Rattle.dump_text.specs.TableTexts.{CanDump, ShortNames};

use dump_text::text::write_text;
use open_table::open_table;
use read_index::{INDEX, LINKS};
use spec_limits::{ROWS, TOPS};
use spec_refusals::{Fault, Refusal};
use table_facts::clash_in;
use table_marks::words_of;

// Writes the dump of a table that does not clash, if there is room for it. It is measured first, so that a refusal writes nothing.
fn write_measured(
    s: &[u8],
    places: &[u16],
    table: &[u64],
    n: usize,
    window: usize,
    out: &mut [u8],
) -> Result<usize, Refusal>
    requires { CanDump (length places.now) window n table.now × ShortNames (names_at s.now places.now) }
    ensures { Gives (with_room (length out.old) (dump_text (names_of s places) (sign_events (row_sign n table.now) (length places.now) window))) out.old out.new (writing_says result) }
{
    let mut none = [0u8; 0];
    let long = write_text(s, places, table, n, window, &mut none);
    if out.len() < long {
        return Err(Refusal {
            fault: Fault::Room,
            place: 0,
        });
    }
    Ok(write_text(s, places, table, n, window, out))
}

// Writes the dump of the lent table.
pub fn write_dump(s: &[u8], table: &[u64], out: &mut [u8]) -> Result<usize, Refusal>
    ensures { WritesDump s.now table.now out.old out.new (writing_says result) }
{
    let mut names = [0u16; INDEX];
    let mut rows = [8u64; ROWS];
    let mut tops = [0u16; TOPS];
    let sheet = open_table(s, &mut names, &mut rows, &mut tops, table)?;
    let n = words_of(sheet.window);
    if clash_in(table, sheet.count, n) {
        return Err(Refusal {
            fault: Fault::Clash,
            place: 0,
        });
    }
    write_measured(
        s,
        &names[LINKS..LINKS + sheet.signals],
        table,
        n,
        sheet.window,
        out,
    )
}
