// A rule's line. Assumes nothing of the text. `names` is the index of the names in the sheet text `s`, before the rules.
ghost use Rattle.read_index.specs.Index.{names_in};
ghost use Rattle.read_sheet.specs.Sheet.{rule_to, rule_line};
ghost use Rattle.read_sheet.specs.RuleAnswers.{LineReady, AtValue, RuleRead};

use crate::whole_rule::rule;
use read_lines::line_at;
use read_parts::parts::Parsed;
use spec_limits::RULE_BYTES;
use spec_refusals::{Fault, Refusal};

// The rule from `v` to its LF at `e`, read into the arena. Its hidden signals are numbered from `hidden`.
fn rule_to(
    s: &[u8],
    names: &[u16],
    arena: &mut [u16],
    v: usize,
    e: usize,
    hidden: usize,
) -> Result<Parsed, Refusal>
    requires { AtValue s.now arena.old names.now v e hidden }
    ensures { RuleRead arena.new hidden (rule_to (names_in s.now names.now) s.now v e) result }
{
    let n = e - v;
    if n < 1 || RULE_BYTES < n {
        return Err(Refusal {
            fault: Fault::Formula,
            place: v,
        });
    }
    let part = rule(&s[..e], names, arena, v, hidden)?;
    let next = e + 1;
    Ok(Parsed {
        place: next,
        ..part
    })
}

// The line at `at` with a rule, read into the arena: the place after the line, the nodes used, and the next hidden signal's row.
pub fn rule_line(
    s: &[u8],
    names: &[u16],
    arena: &mut [u16],
    at: usize,
    hidden: usize,
) -> Result<Parsed, Refusal>
    requires { LineReady s.now arena.old names.now at hidden }
    ensures { RuleRead arena.new hidden (rule_line (names_in s.now names.now) s.now at) result }
{
    let (v, e) = line_at(s, at, b"rule=", Fault::SheetLine)?;
    rule_to(s, names, arena, v, e, hidden)
}
