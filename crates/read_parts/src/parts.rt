// The parts of a rule that hold no formula of their own: its signs, its names, and the intervals after a part; and what a reader of a
// formula answers. `s` is the sheet up to the rule's LF, `names` the index of the declared names in it, `at` the place to read from,
// `used` the nodes in the arena and `hidden` the next hidden signal's row.
ghost use Rattle.std.specs.Prelude.{◌≡◌, false, ◌≤◌, length};
ghost use Rattle.read_bytes.specs.Bytes.{bytes, peek, letter, one_of};
ghost use Rattle.read_arena.specs.Nodes.{op_of};
ghost use Rattle.read_parts.specs.FormulaText.{sign_text, repeats};
ghost use Rattle.read_index.specs.Index.{IndexOf};
ghost use Rattle.read_parts.specs.Promise.{AtLetter, AfterPart, Joinable, Joins, goes_on, declared_at, times_at, Reads, ReadsOn};

use read_arena::{Node, Sign, put_node};
use read_bytes::bytes::{byte_at, starts_at};
use read_index::{LINKS, find};
use read_interval::interval_at;
use spec_refusals::{Fault, Refusal};

// The place after what was read, the nodes then used and the next hidden signal's row.
#[derive(Clone, Copy)]
pub struct Parsed {
    pub place: usize,
    pub nodes: usize,
    pub rows: usize,
}

// The text of a sign.
pub fn text_of(sign: Sign) -> &'static [u8]
    ensures { result.now ≡ sign_text (op_of sign) }
{
    match sign {
        Sign::And => b"&",
        Sign::Or => b"|",
        Sign::Implies => b"=>",
        Sign::Iff => b"<=>",
    }
}

// Does the sign join any number of parts? If not, it joins two at most.
fn repeats(sign: Sign) -> bool
    ensures { result ≡ repeats (op_of sign) }
{
    matches!(sign, Sign::And | Sign::Or)
}

// Does the sign stand at `at` after a level's part, which was its first one or not, and join another part?
pub fn goes_on(s: &[u8], at: usize, first: bool, sign: Sign) -> bool
    requires { at ≤ length s.now }
    ensures { result ≡ goes_on (op_of sign) first s.now at }
{
    (repeats(sign) || first) && starts_at(s, at, text_of(sign))
}

// A level's part was read, whose node is the last one of `last`. The first part stands for itself; any other is joined by the sign to what
// stands before it, whose node is the last one of `used`. Answers the nodes that are then used.
pub fn join(arena: &mut [u16], sign: Sign, first: bool, used: usize, last: usize) -> usize
    requires { first ≡ false → Joinable arena.old used last }
    ensures { Joins sign first used last arena.old arena.new result }
{
    if first {
        return last;
    }
    let left = used - 1;
    let right = last - 1;
    put_node(arena, last, Node::Pair(sign, left, right));
    last + 1
}

// Does a letter stand at `at`?
pub fn letter_at(s: &[u8], at: usize) -> bool
    ensures { result ≡ letter (peek s.now at) }
{
    matches!(byte_at(s, at), b'a'..=b'z')
}

// A declared name.
pub fn name(
    s: &[u8],
    names: &[u16],
    arena: &mut [u16],
    at: usize,
    used: usize,
    hidden: usize,
) -> Result<Parsed, Refusal>
    requires { AtLetter s.now arena.old (IndexOf s.now names.now) at used hidden }
    ensures { Reads (declared_at s names at) s arena at used hidden result }
{
    let f = find(s, names, s, at);
    let i = f.signal;
    let next = f.end;
    if i < names.len() - LINKS {
        put_node(arena, used, Node::Name(i as u16));
        Ok(Parsed {
            place: next,
            nodes: used + 1,
            rows: hidden,
        })
    } else {
        Err(Refusal {
            fault: Fault::Undeclared,
            place: at,
        })
    }
}

// Does an `@` or a `?` stand at `at`?
pub fn time_at(s: &[u8], at: usize) -> bool
    ensures { result ≡ one_of (peek s.now at) (bytes "@?") }
{
    matches!(byte_at(s, at), b'@' | b'?')
}

// The `@` and `?` with their intervals after a plain part, whose node is the last one.
pub fn times_at(
    s: &[u8],
    arena: &mut [u16],
    at: usize,
    used: usize,
    hidden: usize,
) -> Result<Parsed, Refusal>
    requires { AfterPart s.now arena.old (Unit {0}) at used hidden }
    ensures { ReadsOn (times_at s at) s arena at used hidden result }
{
    let mut place = at;
    let mut nodes = used;
    while time_at(s, place) {
        let b = byte_at(s, place);
        let inner = place + 1;
        let (first, more, next) = interval_at(s, inner)?;
        let child = nodes - 1;
        put_node(
            arena,
            nodes,
            Node::Time(b == b'@', child, first as u16, more as u16),
        );
        place = next;
        nodes += 1;
    }
    Ok(Parsed {
        place,
        nodes,
        rows: hidden,
    })
}
