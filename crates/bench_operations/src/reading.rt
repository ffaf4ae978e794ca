// The sheet's text read with all its rules, and not lowered: what `check` does but for the rows. Assumes nothing of the text.
ghost use Rattle.lower_lines.specs.InTurn.{Legible};

use crate::answers::Answer;
use read_head::head;
use read_index::{INDEX, LINKS};
use read_sheet::rules::rule_line;
use spec_limits::{ARENA, BYTES};
use spec_refusals::{Fault, Refusal};

// Reads the rules on the `m` lines from `first` on, up to the sheet's end, each into the same arena.
fn read_lines(s: &[u8], names: &[u16], m: usize, first: usize) -> Result<Answer, Refusal>
    requires { Legible s.now names.now m first }
{
    let mut arena = [0u16; ARENA];
    let mut place = first;
    let mut row = names.len() - LINKS;
    for done in 0..m {
        let read = rule_line(s, names, &mut arena, place, row)?;
        place = read.place;
        row = read.rows;
    }
    if place != s.len() {
        return Err(Refusal {
            fault: Fault::SheetLine,
            place,
        });
    }
    Ok(Answer::Rules(m))
}

// Reads the sheet.
pub fn read_sheet(s: &[u8]) -> Result<Answer, Refusal> {
    if BYTES < s.len() {
        return Err(Refusal {
            fault: Fault::SheetLength,
            place: 0,
        });
    }
    let mut names = [0u16; INDEX];
    let head = head(s, &mut names)?;
    read_lines(s, &names[..LINKS + head.signals], head.rules, head.first)
}
