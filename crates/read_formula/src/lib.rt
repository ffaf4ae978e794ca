// The parser of a rule: its levels call one another in a cycle, and the remaining text falls. `s` is the sheet up to the rule's LF, `names`
// the index of the declared names in it, `at` the place to read from, `used` the nodes in the arena, `hidden` the next hidden signal's
// row, and at most `depth` of `(` and `!` may still be opened.
#![tactic(auto)]

ghost use Rattle.std.specs.Prelude.{◌-◌};
ghost use Rattle.read_arena.specs.Nodes.{op_of};
ghost use Rattle.spec_tilco.specs.Formula.{And, Or, Implies, Iff};
ghost use Rattle.read_index.specs.Index.{IndexOf};
ghost use Rattle.read_parts.specs.Parsed.{PartReady};
ghost use Rattle.read_parts.specs.Promise.{AtByte, AtLetter, AfterKeyword, AfterFirst};
ghost use Rattle.read_parts.specs.Promise.{plain_at, timed_at, level_at, below_at, negated_at, parens_at, name_or_keep_at, since_until_at, second_at, Reads, ReadsSecond};

use read_arena::{Node, Sign, put_keep, put_node};
use read_bytes::bytes::{Class, byte_at, class_of};
use read_index::{LINKS, find};
use read_names::{is_since, is_until};
use read_parts::parts::{Parsed, goes_on, join, letter_at, name, text_of, times_at};
use spec_refusals::{Fault, Refusal};

// A plain part. A declared name is looked up at once: it is neither since nor until.
#[cycle(parser)]
fn operand(
    s: &[u8],
    names: &[u16],
    arena: &mut [u16],
    at: usize,
    used: usize,
    hidden: usize,
    depth: usize,
) -> Result<Parsed, Refusal>
    requires { PartReady s.now arena.old (IndexOf s.now names.now) at used hidden }
    ensures { Reads (plain_at s names depth at) s arena at used hidden result }
{
    if letter_at(s, at) {
        let f = find(s, names, s, at);
        let i = f.signal;
        let next = f.end;
        if i < names.len() - LINKS {
            put_node(arena, used, Node::Name(i as u16));
            return Ok(Parsed {
                place: next,
                nodes: used + 1,
                rows: hidden,
            });
        }
    }
    plain_part(s, names, arena, at, used, hidden, depth)
}

// A plain part and its intervals.
#[cycle(parser)]
fn timed(
    s: &[u8],
    names: &[u16],
    arena: &mut [u16],
    at: usize,
    used: usize,
    hidden: usize,
    depth: usize,
) -> Result<Parsed, Refusal>
    requires { PartReady s.now arena.old (IndexOf s.now names.now) at used hidden }
    ensures { Reads (timed_at s names depth at) s arena at used hidden result }
{
    let part = operand(s, names, arena, at, used, hidden, depth)?;
    times_at(s, arena, part.place, part.nodes, part.rows)
}

// A part of the sign's level, which the level below reads.
#[inline(always)]
#[cycle(parser)]
fn below(
    s: &[u8],
    names: &[u16],
    arena: &mut [u16],
    at: usize,
    used: usize,
    hidden: usize,
    depth: usize,
    sign: Sign,
) -> Result<Parsed, Refusal>
    requires { PartReady s.now arena.old (IndexOf s.now names.now) at used hidden }
    ensures { Reads (below_at s names depth (op_of sign) at) s arena at used hidden result }
{
    match sign {
        Sign::And => timed(s, names, arena, at, used, hidden, depth),
        Sign::Or => and_part(s, names, arena, at, used, hidden, depth),
        Sign::Implies => or_part(s, names, arena, at, used, hidden, depth),
        Sign::Iff => implication(s, names, arena, at, used, hidden, depth),
    }
}

// The level of a sign: its parts, joined by the sign. It is written into each of the four levels, where the sign is a constant: as a
// function that is called it costs 27 % of a check.
#[inline(always)]
#[cycle(parser)]
fn level(
    s: &[u8],
    names: &[u16],
    arena: &mut [u16],
    at: usize,
    used: usize,
    hidden: usize,
    depth: usize,
    sign: Sign,
) -> Result<Parsed, Refusal>
    requires { PartReady s.now arena.old (IndexOf s.now names.now) at used hidden }
    ensures { Reads (level_at s names depth (op_of sign) at) s arena at used hidden result }
{
    let text = text_of(sign);
    let mut place = at;
    let mut nodes = used;
    let mut rows = hidden;
    let mut first = true;
    loop {
        let part = below(s, names, arena, place, nodes, rows, depth, sign)?;
        nodes = join(arena, sign, first, nodes, part.nodes);
        if !goes_on(s, part.place, first, sign) {
            return Ok(Parsed { nodes, ..part });
        }
        place = part.place + text.len();
        rows = part.rows;
        first = false;
    }
}

// And-part: timed parts joined by `&`.
#[cycle(parser)]
fn and_part(
    s: &[u8],
    names: &[u16],
    arena: &mut [u16],
    at: usize,
    used: usize,
    hidden: usize,
    depth: usize,
) -> Result<Parsed, Refusal>
    requires { PartReady s.now arena.old (IndexOf s.now names.now) at used hidden }
    ensures { Reads (level_at s names depth And at) s arena at used hidden result }
{
    level(s, names, arena, at, used, hidden, depth, Sign::And)
}

// Or-part: and-parts joined by `|`.
#[cycle(parser)]
fn or_part(
    s: &[u8],
    names: &[u16],
    arena: &mut [u16],
    at: usize,
    used: usize,
    hidden: usize,
    depth: usize,
) -> Result<Parsed, Refusal>
    requires { PartReady s.now arena.old (IndexOf s.now names.now) at used hidden }
    ensures { Reads (level_at s names depth Or at) s arena at used hidden result }
{
    level(s, names, arena, at, used, hidden, depth, Sign::Or)
}

// Implication part: one or-part, or two joined by `=>`.
#[cycle(parser)]
fn implication(
    s: &[u8],
    names: &[u16],
    arena: &mut [u16],
    at: usize,
    used: usize,
    hidden: usize,
    depth: usize,
) -> Result<Parsed, Refusal>
    requires { PartReady s.now arena.old (IndexOf s.now names.now) at used hidden }
    ensures { Reads (level_at s names depth Implies at) s arena at used hidden result }
{
    level(s, names, arena, at, used, hidden, depth, Sign::Implies)
}

// Formula: one implication part, or two joined by `<=>`.
#[cycle(parser)]
pub fn formula(
    s: &[u8],
    names: &[u16],
    arena: &mut [u16],
    at: usize,
    used: usize,
    hidden: usize,
    depth: usize,
) -> Result<Parsed, Refusal>
    requires { PartReady s.now arena.old (IndexOf s.now names.now) at used hidden }
    ensures { Reads (level_at s names depth Iff at) s arena at used hidden result }
{
    level(s, names, arena, at, used, hidden, depth, Sign::Iff)
}

// A plain part, by its first byte.
#[cycle(parser)]
fn plain_part(
    s: &[u8],
    names: &[u16],
    arena: &mut [u16],
    at: usize,
    used: usize,
    hidden: usize,
    depth: usize,
) -> Result<Parsed, Refusal>
    requires { PartReady s.now arena.old (IndexOf s.now names.now) at used hidden }
    ensures { Reads (plain_at s names depth at) s arena at used hidden result }
{
    let refusal = Refusal {
        fault: Fault::Formula,
        place: at,
    };
    let b = byte_at(s, at);
    match class_of(b) {
        Class::Letter => word(s, names, arena, at, used, hidden, depth),
        Class::Sign => {
            if b == b'!' {
                deny(s, names, arena, at, used, hidden, depth)
            } else {
                Err(refusal)
            }
        }
        Class::Bracket => {
            if b == b'(' {
                paren(s, names, arena, at, used, hidden, depth)
            } else {
                Err(refusal)
            }
        }
        Class::Digit => Err(refusal),
        Class::Other => Err(refusal),
    }
}

// `!` and a plain part.
#[cycle(parser)]
fn deny(
    s: &[u8],
    names: &[u16],
    arena: &mut [u16],
    at: usize,
    used: usize,
    hidden: usize,
    depth: usize,
) -> Result<Parsed, Refusal>
    requires { AtByte s.now arena.old (IndexOf s.now names.now) at used hidden }
    ensures { Reads (negated_at s names depth at) s arena at used hidden result }
{
    if depth == 0 {
        return Err(Refusal {
            fault: Fault::Nesting,
            place: at,
        });
    }
    let inner = at + 1;
    let part = plain_part(s, names, arena, inner, used, hidden, depth - 1)?;
    let child = part.nodes - 1;
    put_node(arena, part.nodes, Node::Deny(child));
    let count = part.nodes + 1;
    Ok(Parsed {
        nodes: count,
        ..part
    })
}

// A formula in parentheses.
#[cycle(parser)]
fn paren(
    s: &[u8],
    names: &[u16],
    arena: &mut [u16],
    at: usize,
    used: usize,
    hidden: usize,
    depth: usize,
) -> Result<Parsed, Refusal>
    requires { AtByte s.now arena.old (IndexOf s.now names.now) at used hidden }
    ensures { Reads (parens_at s names depth at) s arena at used hidden result }
{
    if depth == 0 {
        return Err(Refusal {
            fault: Fault::Nesting,
            place: at,
        });
    }
    let inner = at + 1;
    let part = formula(s, names, arena, inner, used, hidden, depth - 1)?;
    let b = byte_at(s, part.place);
    if b != b')' {
        return Err(Refusal {
            fault: Fault::Formula,
            place: part.place,
        });
    }
    let after = part.place + 1;
    Ok(Parsed {
        place: after,
        ..part
    })
}

// A name, or since or until with what follows.
#[cycle(parser)]
fn word(
    s: &[u8],
    names: &[u16],
    arena: &mut [u16],
    at: usize,
    used: usize,
    hidden: usize,
    depth: usize,
) -> Result<Parsed, Refusal>
    requires { AtLetter s.now arena.old (IndexOf s.now names.now) at used hidden }
    ensures { Reads (name_or_keep_at s names depth at) s arena at used hidden result }
{
    if is_since(s, at) {
        let next = at + 5;
        keep(s, names, arena, next, used, hidden, depth, true)
    } else {
        if is_until(s, at) {
            let next = at + 5;
            keep(s, names, arena, next, used, hidden, depth, false)
        } else {
            name(s, names, arena, at, used, hidden)
        }
    }
}

// What follows since or until, which are five bytes before it: `(`, two formulas, `)`.
#[cycle(parser)]
fn keep(
    s: &[u8],
    names: &[u16],
    arena: &mut [u16],
    at: usize,
    used: usize,
    hidden: usize,
    depth: usize,
    since: bool,
) -> Result<Parsed, Refusal>
    requires { AfterKeyword s.now arena.old (IndexOf s.now names.now) at used hidden }
    ensures { Reads (since_until_at s names depth since at) s arena (at - 5) used hidden result }
{
    let b = byte_at(s, at);
    if b != b'(' {
        return Err(Refusal {
            fault: Fault::Formula,
            place: at,
        });
    }
    if depth == 0 {
        return Err(Refusal {
            fault: Fault::Nesting,
            place: at,
        });
    }
    let inner = at + 1;
    let first = hidden + 1;
    let part = formula(s, names, arena, inner, used, first, depth - 1)?;
    second(
        s,
        names,
        arena,
        part.place,
        part.nodes,
        part.rows,
        depth - 1,
        since,
        hidden,
    )
}

// From the comma of since or until on; the first formula's node is the last one, and `row` is the hidden signal's.
#[cycle(parser)]
fn second(
    s: &[u8],
    names: &[u16],
    arena: &mut [u16],
    at: usize,
    used: usize,
    hidden: usize,
    depth: usize,
    since: bool,
    row: usize,
) -> Result<Parsed, Refusal>
    requires { AfterFirst s.now arena.old (IndexOf s.now names.now) at used hidden row }
    ensures { ReadsSecond (second_at s names depth since at) s arena (at - 4) used hidden row result }
{
    let b = byte_at(s, at);
    if b != b',' {
        return Err(Refusal {
            fault: Fault::Formula,
            place: at,
        });
    }
    let inner = at + 1;
    let part = formula(s, names, arena, inner, used, hidden, depth)?;
    let c = byte_at(s, part.place);
    if c != b')' {
        return Err(Refusal {
            fault: Fault::Formula,
            place: part.place,
        });
    }
    let left = used - 1;
    let right = part.nodes - 1;
    put_keep(arena, part.nodes, since, row as u16, left, right);
    let after = part.place + 1;
    let count = part.nodes + 6;
    Ok(Parsed {
        place: after,
        nodes: count,
        rows: part.rows,
    })
}
