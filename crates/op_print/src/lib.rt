// print_rule: a rule's text as it was understood, or a refusal. Assumes nothing.
#![tactic(auto)]

ghost use Rattle.std.specs.Prelude.{◌≡◌, ◌*◌, ◌≤◌, length};
ghost use Rattle.spec_limits.specs.Limits.{most_bytes, most_rules, most_rule_bytes};
ghost use Rattle.read_index.specs.Index.{names_in};
ghost use Rattle.read_arena.specs.NodeRules.{written_at};
ghost use Rattle.read_sheet.specs.Sheet.{rule_line};
ghost use Rattle.spec_print.specs.RuleTexts.{printed};
ghost use Rattle.spec_operations.specs.TextAnswers.{Gives};
ghost use Rattle.spec_print.specs.Printing.{with_room, PrintsRule};
ghost use Rattle.write_formula.specs.PartTexts.{NamedNode};
ghost use Rattle.spec_operations.specs.WritingSays.{writing_says};
ghost use Rattle.write_bytes.specs.Writes.{Counted, Wrote};
ghost use Rattle.op_print.specs.RuleLines.{line_of, printed_line, RuleAt, OpenedNames};

use open_sheet::open_sheet;
use read_formula::formula;
use read_index::{INDEX, LINKS};
use read_lines::{line_end, ranged_line};
use spec_limits::{ARENA, OPEN, ROWS, RULE_BYTES, RULES, TOPS};
use spec_refusals::{Fault, Refusal};
use write_bytes::Writer;
use write_formula::write_formula;

// How many bytes `rule=` has.
const KEY: usize = 5;

// The place of the line of a rule, where that of the first one is `first`.
fn line_of(s: &[u8], rule: usize, first: usize) -> usize
    requires { (first ≤ length s.now) × (length s.now ≤ most_bytes) × (rule ≤ most_rules) }
    ensures { result ≡ line_of s.now rule first }
{
    let mut at = first;
    for passed in 0..rule {
        at = line_end(s, at + KEY) + 1;
    }
    at
}

// Writes the rule at a node into a buffer, from the first place on; how long it is.
fn rule_text(s: &[u8], names: &[u16], arena: &[u16], node: usize, text: &mut [u8]) -> usize
    requires named_node { NamedNode names.now arena.now node }
    requires counted { Counted 0 (printed (names_in s.now names.now) (written_at arena.now node)) }
    ensures { Wrote (printed (names_in s.now names.now) (written_at arena.now node)) 0 text.old text.new result }
{
    let mut w = Writer::new(text);
    write_formula(&mut w, s, names, arena, node);
    w.length()
}

// Prints the rule at a node of the arena. It is written into a buffer of its own first, so that a refusal leaves `out` as it is.
fn print_node(
    s: &[u8],
    names: &[u16],
    arena: &[u16],
    node: usize,
    out: &mut [u8],
) -> Result<usize, Refusal>
    requires named_node { NamedNode names.now arena.now node }
    requires node_len_bound { length (printed (names_in s.now names.now) (written_at arena.now node)) ≤ 2 * most_rule_bytes }
    ensures { Gives (with_room (length out.old) (printed (names_in s.now names.now) (written_at arena.now node))) out.old out.new (writing_says result) }
{
    let mut text = [0u8; RULE_BYTES];
    let length = rule_text(s, names, arena, node, &mut text);
    if RULE_BYTES < length {
        return Err(Refusal {
            fault: Fault::Room,
            place: 0,
        });
    }
    if out.len() < length {
        return Err(Refusal {
            fault: Fault::Room,
            place: 0,
        });
    }
    let mut w = Writer::new(out);
    w.push_text(&text[..length]);
    Ok(length)
}

// Reads again the rule whose line is at `at`, and prints it.
fn print_line(s: &[u8], names: &[u16], at: usize, out: &mut [u8]) -> Result<usize, Refusal>
    requires { RuleAt s.now names.now at }
    ensures { Gives (printed_line (names_in s.now names.now) (length out.old) (rule_line (names_in s.now names.now) s.now at)) out.old out.new (writing_says result) }
{
    let mut arena = [0u16; ARENA];
    let v = at + KEY;
    let e = line_end(s, v);
    let part = formula(&s[..e], names, &mut arena, v, 0, 0, OPEN)?;
    let node = part.nodes - 1;
    print_node(s, names, &arena, node, out)
}

// Finds the rule in an opened sheet, whose names are in the index, and prints it. The line `rules=` follows that of the last name.
fn print_opened(s: &[u8], names: &[u16], rule: usize, out: &mut [u8]) -> Result<usize, Refusal>
    requires { OpenedNames s.now names.now }
    ensures { PrintsRule s.now rule out.old out.new (writing_says result) }
{
    let last = names[names.len() - 1] as usize;
    let line = line_end(s, last) + 1;
    let (rules, first) = ranged_line(
        s,
        line,
        b"rules=",
        Fault::SheetLine,
        Fault::SheetNumber,
        0,
        RULES,
    )?;
    if rules <= rule {
        return Err(Refusal {
            fault: Fault::Asked,
            place: 0,
        });
    }
    let at = line_of(s, rule, first);
    print_line(s, names, at, out)
}

// Prints a rule back.
pub fn print_rule(s: &[u8], rule: usize, out: &mut [u8]) -> Result<usize, Refusal>
    ensures { PrintsRule s.now rule out.old out.new (writing_says result) }
{
    let mut names = [0u16; INDEX];
    let mut rows = [8u64; ROWS];
    let mut tops = [0u16; TOPS];
    let sheet = open_sheet(s, &mut names, &mut rows, &mut tops)?;
    print_opened(s, &names[..LINKS + sheet.signals], rule, out)
}
