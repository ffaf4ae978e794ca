// ask: what the lent table says of a signal at a tick. Assumes nothing.
#![tactic(auto)]

ghost use Rattle.op_ask.specs.AskingSays.{asking_says};
ghost use Rattle.spec_operations.specs.Operations.{Asks};

use open_table::open_table;
use read_index::INDEX;
use spec_limits::{ROWS, TOPS};
use spec_refusals::{Fault, Refusal};
use table_facts::clash_in;
use table_marks::{Value, value_at, words_of};

// Asks the table, as it was lent, for a signal's value at a tick: the value of the cell, or a refusal.
pub fn ask(s: &[u8], table: &[u64], signal: usize, tick: usize) -> Result<Value, Refusal>
    ensures { Asks s.now table.now signal tick (asking_says result) }
{
    let mut names = [0u16; INDEX];
    let mut rows = [8u64; ROWS];
    let mut tops = [0u16; TOPS];
    let sheet = open_table(s, &mut names, &mut rows, &mut tops, table)?;
    if sheet.signals <= signal {
        return Err(Refusal {
            fault: Fault::Asked,
            place: 0,
        });
    }
    if sheet.window <= tick {
        return Err(Refusal {
            fault: Fault::Asked,
            place: 0,
        });
    }
    let n = words_of(sheet.window);
    let clash = clash_in(table, sheet.count, n);
    let value = value_at(table, n, signal, tick, clash);
    Ok(value)
}
