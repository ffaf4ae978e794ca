// What an add does before it closes the table: the sheet is opened and the readings are taken. Assumes nothing.
ghost use Rattle.std.specs.Prelude.{◌*◌, ◌≤◌, length};
ghost use Rattle.spec_limits.specs.Limits.{most_ticks};
ghost use Rattle.spec_tilco.specs.Table.{words};
ghost use Rattle.read_index.specs.Index.{name_count, IndexOf};

use crate::answers::Answer;
use open_table::open_table;
use read_index::{INDEX, LINKS};
use read_readings::whole::take_readings;
use spec_limits::{ROWS, TOPS};
use spec_refusals::Refusal;
use table_facts::count_facts;
use table_marks::words_of;

// Takes the readings into a table that was compared with the sheet.
fn take_opened(
    s: &[u8],
    names: &[u16],
    window: usize,
    readings: &[u8],
    table: &mut [u64],
) -> Result<Answer, Refusal>
    requires { IndexOf s.now names.now × (1 ≤ window) × (window ≤ most_ticks) × (2 * name_count names.now * words window ≤ length table.old) }
{
    let n = words_of(window);
    let before = count_facts(table, n, names.len() - LINKS);
    take_readings(s, names, window, n, readings, table)?;
    Ok(Answer::Before(before))
}

// Takes the readings.
pub fn take(s: &[u8], readings: &[u8], table: &mut [u64]) -> Result<Answer, Refusal> {
    let mut names = [0u16; INDEX];
    let mut rows = [8u64; ROWS];
    let mut tops = [0u16; TOPS];
    let sheet = open_table(s, &mut names, &mut rows, &mut tops, table)?;
    take_opened(
        s,
        &names[..LINKS + sheet.signals],
        sheet.window,
        readings,
        table,
    )
}
