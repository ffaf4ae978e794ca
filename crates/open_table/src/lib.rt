// What comes before a reading or a question: the sheet is opened, and the lent table compared with it.
// Assumes nothing of the sheet and the table; the other buffers are the operation's own.
#![tactic(auto)]

ghost use Rattle.open_sheet.specs.Buffers.{Fresh};
ghost use Rattle.open_table.specs.OpenedTable.{TableOpens};

use open_sheet::{Sheet, open_sheet};
use spec_refusals::{Fault, Refusal};
use table_facts::inside_window;
use table_marks::words_of;

// Opens the sheet, and compares the lent table with it.
pub fn open_table(
    s: &[u8],
    names: &mut [u16],
    rows: &mut [u64],
    tops: &mut [u16],
    table: &[u64],
) -> Result<Sheet, Refusal>
    requires { Fresh names.old rows.old tops.old }
    ensures { TableOpens s.now table.now names.new rows.new tops.new result }
{
    let sheet = open_sheet(s, names, rows, tops)?;
    let n = words_of(sheet.window);
    if table.len() != 2 * sheet.count * n {
        return Err(Refusal {
            fault: Fault::TableLength,
            place: 0,
        });
    }
    if !inside_window(table, sheet.count, n, sheet.window) {
        return Err(Refusal {
            fault: Fault::TableMark,
            place: 0,
        });
    }
    Ok(sheet)
}
