// A whole rule. Assumes nothing of the text. `s` is the sheet up to the rule's LF, `names` the index of the declared names in it.
ghost use Rattle.read_index.specs.Index.{IndexOf};
ghost use Rattle.read_parts.specs.Parsed.{PartReady};
ghost use Rattle.read_parts.specs.Promise.{rule_at, Reads};

use read_formula::formula;
use read_parts::parts::Parsed;
use spec_limits::OPEN;
use spec_refusals::{Fault, Refusal};

// A whole rule, from `at` to the text's end, into an empty arena that has a node for each byte.
pub fn rule(
    s: &[u8],
    names: &[u16],
    arena: &mut [u16],
    at: usize,
    hidden: usize,
) -> Result<Parsed, Refusal>
    requires { PartReady s.now arena.old (IndexOf s.now names.now) at 0 hidden }
    ensures { Reads (rule_at s names at) s arena at 0 hidden result }
{
    let part = formula(s, names, arena, at, 0, hidden, OPEN)?;
    if part.place == s.len() {
        Ok(part)
    } else {
        Err(Refusal {
            fault: Fault::Formula,
            place: part.place,
        })
    }
}
