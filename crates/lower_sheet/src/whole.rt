// All rules of a sheet: read once where the guess of their hidden signals is right, else twice. Assumes that the head was accepted.
ghost use Rattle.read_index.specs.Index.{name_count};
ghost use Rattle.lower_rule.specs.RuleRows.{buffers};
ghost use Rattle.lower_lines.specs.InTurn.{Legible, rules_at};
ghost use Rattle.lower_sheet.specs.SheetRows.{Lent, RulesStand};

use crate::guess::guess_hidden;
use lower_lines::{RuleLines, read_rules};
use lower_rows::words::SIGNAL;
use spec_limits::HIDDEN;
use spec_refusals::Refusal;

// The rules on the `m` lines from `first` on: what they hold, their rows and their tops.
pub fn lower_rules(
    s: &[u8],
    names: &[u16],
    m: usize,
    first: usize,
    tops: &mut [u16],
    out: &mut [u64],
) -> Result<RuleLines, Refusal>
    requires { Legible s.now names.now m first × Lent out.old tops.old }
    ensures { RulesStand (rules_at s.now names.now m first) (name_count names.now) (buffers out.new tops.new) result }
{
    let guess = guess_hidden(s, first);
    let read = read_rules(s, names, m, first, guess, tops, out)?;
    if read.hidden == guess {
        return Ok(read);
    }
    if HIDDEN < read.hidden {
        return Ok(RuleLines {
            hidden: read.hidden,
            end: read.end,
            lowered: None,
        });
    }
    out.fill(SIGNAL);
    read_rules(s, names, m, first, read.hidden, tops, out)
}
