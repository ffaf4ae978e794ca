// Opening a sheet: it is read and lowered. Assumes nothing of the sheet; the buffers are the operation's own.
#![tactic(auto)]

ghost use Rattle.open_sheet.specs.Buffers.{Fresh};
ghost use Rattle.open_sheet.specs.OpenedSheet.{SheetOpens};

use lower_sheet::whole::lower_rules;
use read_head::head;
use read_index::LINKS;
use spec_limits::BYTES;
use spec_refusals::{Fault, Refusal};

// An accepted sheet: its window, and how many signals, top rows and rows it has.
#[derive(Clone, Copy)]
pub struct Sheet {
    pub window: usize,
    pub signals: usize,
    pub tops: usize,
    pub count: usize,
}

// Reads and lowers the sheet: the index of its names, the words of its rows and its top rows.
pub fn open_sheet(
    s: &[u8],
    names: &mut [u16],
    rows: &mut [u64],
    tops: &mut [u16],
) -> Result<Sheet, Refusal>
    requires { Fresh names.old rows.old tops.old }
    ensures { SheetOpens s.now names.new rows.new tops.new result }
{
    if BYTES < s.len() {
        return Err(Refusal {
            fault: Fault::SheetLength,
            place: 0,
        });
    }
    let heading = head(s, names)?;
    let signals = heading.signals;
    let lines = lower_rules(
        s,
        &names[..LINKS + signals],
        heading.rules,
        heading.first,
        tops,
        rows,
    )?;
    if lines.end != s.len() {
        return Err(Refusal {
            fault: Fault::SheetLine,
            place: lines.end,
        });
    }
    let Some(used) = lines.lowered else {
        return Err(Refusal {
            fault: Fault::SheetSize,
            place: 0,
        });
    };
    Ok(Sheet {
        window: heading.window,
        signals,
        tops: used.tops,
        count: used.rows,
    })
}
