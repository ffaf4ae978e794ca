// add: the readings are taken into the lent table, and the table is closed. Assumes nothing.
#![tactic(auto)]

ghost use Rattle.std.specs.Prelude.{length};
ghost use Rattle.op_add.specs.AddingSays.{adding_says};
ghost use Rattle.op_add.specs.WorkLists.{ListFor};
ghost use Rattle.read_index.specs.Index.{places_in, IndexOf};
ghost use Rattle.open_table.specs.OpenedTable.{OpenedTable};
ghost use Rattle.spec_operations.specs.Operations.{Adds};

use close_table::tops::close_with_tops;
use open_table::open_table;
use read_index::{INDEX, LINKS};
use read_readings::whole::take_readings;
use spec_limits::{ROWS, TOPS};
use spec_refusals::Refusal;
use table_facts::{clash_in, count_facts};
use table_marks::{WORDS, words_of};

// The words of a list of work with a bit for each row, at each word of the widest window.
pub const LONG: usize = (ROWS + 63) / 64 * WORDS;

// A table of at most so many words is small.
pub const SMALL: usize = 2 * ROWS;

// The words of a list of work for a small table, however many words a row has there.
pub const SHORT: usize = WORDS;

// How many facts are new, and whether there is a clash.
#[derive(Clone, Copy)]
pub struct Added {
    pub new: usize,
    pub clash: bool,
}

// Adds the readings to a table that was compared with the sheet.
fn add_opened(
    s: &[u8],
    names: &[u16],
    rows: &[u64],
    count: usize,
    tops: &[u16],
    k: usize,
    window: usize,
    readings: &[u8],
    todo: &mut [u64],
    table: &mut [u64],
) -> Result<Added, Refusal>
    requires opened_table { OpenedTable s.now table.old (places_in names.now) rows.now tops.now window k count × IndexOf s.now names.now }
    requires list_for { ListFor (length table.old) (length todo.old) }
    ensures { Adds s.now readings.now table.old table.new (adding_says result) }
{
    let n = words_of(window);
    let signals = names.len() - LINKS;
    let before = count_facts(table, n, signals);
    take_readings(s, names, window, n, readings, table)?;
    close_with_tops(rows, count, tops, k, n, window, todo, table);
    let after = count_facts(table, n, signals);
    let clash = clash_in(table, count, n);
    let new = after - before;
    Ok(Added { new, clash })
}

// add, with a list of work that is long enough for the table.
fn add_with(
    s: &[u8],
    readings: &[u8],
    todo: &mut [u64],
    table: &mut [u64],
) -> Result<Added, Refusal>
    requires { ListFor (length table.old) (length todo.old) }
    ensures { Adds s.now readings.now table.old table.new (adding_says result) }
{
    let mut names = [0u16; INDEX];
    let mut rows = [8u64; ROWS];
    let mut tops = [0u16; TOPS];
    let sheet = open_table(s, &mut names, &mut rows, &mut tops, table)?;
    add_opened(
        s,
        &names[..LINKS + sheet.signals],
        &rows,
        sheet.count,
        &tops,
        sheet.tops,
        sheet.window,
        readings,
        todo,
        table,
    )
}

// Adds the readings: the table has then exactly what the rules lead to. At a refusal it keeps every word.
// Clearing the long list would cost a small sheet more than the rest of its closing.
pub fn add(s: &[u8], readings: &[u8], table: &mut [u64]) -> Result<Added, Refusal>
    ensures { Adds s.now readings.now table.old table.new (adding_says result) }
{
    if table.len() <= SMALL {
        let mut todo = [0u64; SHORT];
        return add_with(s, readings, &mut todo, table);
    }
    let mut todo = [0u64; LONG];
    add_with(s, readings, &mut todo, table)
}
