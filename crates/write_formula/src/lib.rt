// A rule's text as it is printed back, written from the arena: parentheses only where the grammar needs them, intervals in square brackets.
// Assumes that the rule's names are declared and that the places of its text can be counted. `s` is the sheet's text, `names` the index of the declared names
// in it. The writers of parts call one another in a cycle, and the formula's size falls.
#![tactic(auto)]

ghost use Rattle.std.specs.Prelude.{◌≡◌, ℕ, ◌<◌, get_or};
ghost use mathlib.Core.List.{[], ◌∷◌, ◌++◌, flatten};
ghost use Rattle.read_bytes.specs.Bytes.{bytes};
ghost use Rattle.read_index.specs.Index.{name_count, names_in};
ghost use Rattle.read_arena.specs.Nodes.{op_of};
ghost use Rattle.read_arena.specs.NodeRules.{text_of, written_at};
ghost use Rattle.read_parts.specs.FormulaText.{sign_text};
ghost use Rattle.spec_tilco.specs.Formula.{Written};
ghost use Rattle.spec_tilco.specs.Formula.Written.{pair, time, keep};
ghost use Rattle.spec_grammar.specs.Grammar.{before as partBefore, below, keep_word_lem, time_sign};
ghost use Rattle.spec_grammar.specs.Grammar.Part.{level};
ghost use Rattle.write_bytes.specs.Writes.{Counted};
ghost use Rattle.write_bytes.specs.Writers.{Writes};
ghost use Rattle.spec_print.specs.RuleTexts.{rank, part_of, end_text, interval_tokens, printed};
ghost use Rattle.write_formula.specs.PartTexts.{bare_text, part_text, paren_text, NamedNode, NamedParts};

use read_arena::{Node, Sign, node_at};
use read_index::LINKS;
use spec_limits::OFFSET_ZERO;
use write_bytes::Writer;
use write_lines::write_word;

// The ranks of a plain part, of a timed part and of a formula.
const PLAIN: usize = 0;

const TIMED: usize = 1;

const FORMULA: usize = 5;

// The rank of a level.
fn rank_level(sign: Sign) -> usize
    ensures { result ≡ rank (level (op_of sign)) }
{
    match sign {
        Sign::And => 2,
        Sign::Or => 3,
        Sign::Implies => 4,
        Sign::Iff => FORMULA,
    }
}

// The rank of a level's parts.
fn rank_below(sign: Sign) -> usize
    ensures { result ≡ rank (below (op_of sign)) }
{
    match sign {
        Sign::And => TIMED,
        Sign::Or => 2,
        Sign::Implies => 3,
        Sign::Iff => 4,
    }
}

// The rank of what may stand before a sign: & and | group from the left, and => and <=> join two of the level's parts.
fn rank_before(sign: Sign) -> usize
    ensures { result ≡ rank (partBefore (op_of sign)) }
{
    match sign {
        Sign::And => 2,
        Sign::Or => 3,
        Sign::Implies => 3,
        Sign::Iff => 4,
    }
}

// The rank of the formula at a node, without parentheses.
fn rank_of(node: Node) -> usize
    ensures { (f : ℕ → Written) → result ≡ rank (part_of (text_of node f)) }
{
    match node {
        Node::Name(_) => PLAIN,
        Node::Deny(_) => PLAIN,
        Node::Pair(sign, _, _) => rank_level(sign),
        Node::Time(_, _, _, _) => TIMED,
        Node::Keep(_, _, _, _) => PLAIN,
    }
}

// The name of a signal.
fn write_name(w: &mut Writer, s: &[u8], names: &[u16], signal: u16)
    requires { (signal < name_count names.now) × Counted w.old.used (get_or (names_in s.now names.now) signal []) }
    ensures { Writes (get_or (names_in s.now names.now) signal []) w.old w.new }
{
    let at = names[LINKS + signal as usize] as usize;
    write_word(w, s, at);
}

// An end of an interval, whose offset has 64 added.
fn write_end(w: &mut Writer, offset: usize)
    requires { Counted w.old.used (end_text offset) }
    ensures { Writes (end_text offset) w.old w.new }
{
    if offset < OFFSET_ZERO {
        w.push(b'-');
        w.decimal(OFFSET_ZERO - offset);
    } else {
        w.decimal(offset - OFFSET_ZERO);
    }
}

// An interval in square brackets.
fn write_interval(w: &mut Writer, first: u16, more: u16)
    requires { Counted w.old.used (flatten (interval_tokens first more)) }
    ensures { Writes (flatten (interval_tokens first more)) w.old w.new }
{
    let low = first as usize;
    let high = low + more as usize;
    w.push(b'[');
    write_end(w, low);
    w.push(b',');
    write_end(w, high);
    w.push(b']');
}

// `@` or `?`.
fn time_sign(always: bool) -> u8
    ensures { result ∷ [] ≡ time_sign always }
{
    if always { b'@' } else { b'?' }
}

// The sign between two formulas.
fn write_sign(w: &mut Writer, sign: Sign)
    requires { Counted w.old.used (sign_text (op_of sign)) }
    ensures { Writes (sign_text (op_of sign)) w.old w.new }
{
    match sign {
        Sign::And => w.push(b'&'),
        Sign::Or => w.push(b'|'),
        Sign::Implies => w.push_text(b"=>"),
        Sign::Iff => w.push_text(b"<=>"),
    }
}

// The word since or until, and the `(` after it.
fn write_keep_word(w: &mut Writer, since: bool)
    requires { Counted w.old.used (keep_word_lem since ++ bytes "(") }
    ensures { Writes (keep_word_lem since ++ bytes "(") w.old w.new }
{
    if since {
        w.push_text(b"since(");
    } else {
        w.push_text(b"until(");
    }
}

// A parenthesis, where one is needed.
fn write_paren(w: &mut Writer, needed: bool, paren: u8)
    requires { Counted w.old.used (paren_text needed paren) }
    ensures { Writes (paren_text needed paren) w.old w.new }
{
    if needed {
        w.push(paren);
    }
}

// The formula at a node, where a part of a rank up to `most` may stand: in parentheses if it is of a higher one.
#[cycle(write)]
fn write_part(w: &mut Writer, s: &[u8], names: &[u16], arena: &[u16], node: usize, most: usize)
    requires named_node { NamedNode names.now arena.now node }
    requires counted { Counted w.old.used (part_text (names_in s.now names.now) most (written_at arena.now node)) }
    ensures { Writes (part_text (names_in s.now names.now) most (written_at arena.now node)) w.old w.new }
{
    let k = node_at(arena, node);
    let needed = most < rank_of(k);
    write_paren(w, needed, b'(');
    write_bare(w, s, names, arena, k);
    write_paren(w, needed, b')');
}

// The formula of a node, without parentheses around it.
#[cycle(write)]
fn write_bare(w: &mut Writer, s: &[u8], names: &[u16], arena: &[u16], node: Node)
    requires named_parts { NamedParts names.now arena.now node }
    requires counted { Counted w.old.used (bare_text (names_in s.now names.now) (text_of node (written_at arena.now))) }
    ensures { Writes (bare_text (names_in s.now names.now) (text_of node (written_at arena.now))) w.old w.new }
{
    match node {
        Node::Name(signal) => write_name(w, s, names, signal),
        Node::Deny(x) => {
            w.push(b'!');
            write_part(w, s, names, arena, x, PLAIN);
        }
        Node::Pair(sign, x, y) => write_pair(w, s, names, arena, sign, x, y),
        Node::Time(always, x, first, more) => write_timed(
            w, s, names, arena, always, x, first, more,
        ),
        Node::Keep(since, x, y, _) => write_keep(w, s, names, arena, since, x, y),
    }
}

// Two formulas with a sign between them.
#[cycle(write)]
fn write_pair(
    w: &mut Writer,
    s: &[u8],
    names: &[u16],
    arena: &[u16],
    sign: Sign,
    left: usize,
    right: usize,
)
    requires named_node { NamedNode names.now arena.now left × NamedNode names.now arena.now right }
    requires counted { Counted w.old.used (bare_text (names_in s.now names.now) (pair (op_of sign) (written_at arena.now left) (written_at arena.now right))) }
    ensures { Writes (bare_text (names_in s.now names.now) (pair (op_of sign) (written_at arena.now left) (written_at arena.now right))) w.old w.new }
{
    write_part(w, s, names, arena, left, rank_before(sign));
    write_sign(w, sign);
    write_part(w, s, names, arena, right, rank_below(sign));
}

// A formula with an interval after it.
#[cycle(write)]
fn write_timed(
    w: &mut Writer,
    s: &[u8],
    names: &[u16],
    arena: &[u16],
    always: bool,
    child: usize,
    first: u16,
    more: u16,
)
    requires named_node { NamedNode names.now arena.now child }
    requires counted { Counted w.old.used (bare_text (names_in s.now names.now) (time always first more (written_at arena.now child))) }
    ensures { Writes (bare_text (names_in s.now names.now) (time always first more (written_at arena.now child))) w.old w.new }
{
    write_part(w, s, names, arena, child, TIMED);
    w.push(time_sign(always));
    write_interval(w, first, more);
}

// since or until with its two formulas.
#[cycle(write)]
fn write_keep(
    w: &mut Writer,
    s: &[u8],
    names: &[u16],
    arena: &[u16],
    since: bool,
    left: usize,
    right: usize,
)
    requires named_node { NamedNode names.now arena.now left × NamedNode names.now arena.now right }
    requires counted { Counted w.old.used (bare_text (names_in s.now names.now) (keep since (written_at arena.now left) (written_at arena.now right))) }
    ensures { Writes (bare_text (names_in s.now names.now) (keep since (written_at arena.now left) (written_at arena.now right))) w.old w.new }
{
    write_keep_word(w, since);
    write_part(w, s, names, arena, left, FORMULA);
    w.push(b',');
    write_part(w, s, names, arena, right, FORMULA);
    w.push(b')');
}

// The rule at a node.
pub fn write_formula(w: &mut Writer, s: &[u8], names: &[u16], arena: &[u16], node: usize)
    requires named_node { NamedNode names.now arena.now node }
    requires counted { Counted w.old.used (printed (names_in s.now names.now) (written_at arena.now node)) }
    ensures { Writes (printed (names_in s.now names.now) (written_at arena.now node)) w.old w.new }
{
    write_part(w, s, names, arena, node, FORMULA);
}
