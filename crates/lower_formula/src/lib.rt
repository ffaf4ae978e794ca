// The rows of a formula in a sense, children before parents and left before right. `node` and its like are places in the arena, `used`
// the rows in use. The functions call one another in a cycle, and the formula's size falls.
#![tactic(auto)]

ghost use Rattle.std.specs.Prelude.{◌≡◌};
ghost use Rattle.spec_tilco.specs.Formula.{Iff};
ghost use Rattle.spec_tilco.specs.Lowering.{join as join_of, timed as timedOf, turn};
ghost use Rattle.read_arena.specs.Nodes.{op_of};
ghost use Rattle.read_arena.specs.NodeRules.{NodeIn, NodesIn};
ghost use Rattle.lower_rows.specs.RowWrites.{RowBuffer, NearInterval, Lowers};
ghost use Rattle.lower_formula.specs.Lowers.{lowered_at, pair_at};

use lower_rows::interval::spread;
use lower_rows::words::{Lowered, gate_code, name_row, push_row};
use read_arena::{Node, Sign, node_at};

// And (true) for @ and or (false) for ?, traded in the false sense.
fn turned(always: bool, sense: bool) -> bool
    ensures { result ≡ turn always sense }
{
    if always { sense } else { !sense }
}

// The formula at a node.
#[cycle(lower)]
pub fn lower(
    arena: &[u16],
    node: usize,
    sense: bool,
    out: &mut [u64],
    used: usize,
) -> Option<Lowered>
    requires node_in { NodeIn arena.now node }
    requires row_buffer { RowBuffer out.old used }
    ensures { Lowers (lowered_at arena.now sense node) used out.old out.new result }
{
    match node_at(arena, node) {
        Node::Name(row) => name_row(row, sense, out, used),
        Node::Deny(x) => lower(arena, x, !sense, out, used),
        Node::Pair(sign, x, y) => pair(arena, sign, x, y, sense, out, used),
        Node::Time(always, x, first, more) => timed(
            arena,
            x,
            sense,
            turned(always, sense),
            first,
            more,
            out,
            used,
        ),
        Node::Keep(_, _, _, row) => name_row(row, sense, out, used),
    }
}

// Two formulas with a sign between them.
#[cycle(lower)]
fn pair(
    arena: &[u16],
    sign: Sign,
    left: usize,
    right: usize,
    sense: bool,
    out: &mut [u64],
    used: usize,
) -> Option<Lowered>
    requires nodes_in { NodesIn arena.now left right }
    requires row_buffer { RowBuffer out.old used }
    ensures { Lowers (pair_at arena.now (op_of sign) sense left right) used out.old out.new result }
{
    match sign {
        Sign::And => join(arena, left, sense, right, sense, sense, out, used),
        Sign::Or => join(arena, left, sense, right, sense, !sense, out, used),
        Sign::Implies => join(arena, left, !sense, right, sense, !sense, out, used),
        Sign::Iff => same(arena, left, right, sense, out, used),
    }
}

// Two formulas, each in its sense, then their gate.
#[cycle(lower)]
fn join(
    arena: &[u16],
    left: usize,
    left_sense: bool,
    right: usize,
    right_sense: bool,
    gate: bool,
    out: &mut [u64],
    used: usize,
) -> Option<Lowered>
    requires nodes_in { NodesIn arena.now left right }
    requires row_buffer { RowBuffer out.old used }
    ensures { Lowers (join_of gate (lowered_at arena.now left_sense left) (lowered_at arena.now right_sense right)) used out.old out.new result }
{
    let a = lower(arena, left, left_sense, out, used)?;
    let b = lower(arena, right, right_sense, out, a.used as usize)?;
    push_row(gate_code(gate, a.row, b.row), out, b.used as usize)
}

// Two formulas that are to be the same: each gives the other.
#[cycle(lower)]
fn same(
    arena: &[u16],
    left: usize,
    right: usize,
    sense: bool,
    out: &mut [u64],
    used: usize,
) -> Option<Lowered>
    requires nodes_in { NodesIn arena.now left right }
    requires row_buffer { RowBuffer out.old used }
    ensures { Lowers (pair_at arena.now Iff sense left right) used out.old out.new result }
{
    let opposite = !sense;
    let a = join(arena, left, opposite, right, sense, opposite, out, used)?;
    let b = join(
        arena,
        right,
        opposite,
        left,
        sense,
        opposite,
        out,
        a.used as usize,
    )?;
    push_row(gate_code(sense, a.row, b.row), out, b.used as usize)
}

// A formula, its looks over an interval, and their joins.
#[cycle(lower)]
fn timed(
    arena: &[u16],
    child: usize,
    sense: bool,
    gate: bool,
    first: u16,
    more: u16,
    out: &mut [u64],
    used: usize,
) -> Option<Lowered>
    requires node_in { NodeIn arena.now child }
    requires near_interval { NearInterval first more }
    requires row_buffer { RowBuffer out.old used }
    ensures { Lowers (timedOf gate first more (lowered_at arena.now sense child)) used out.old out.new result }
{
    let top = lower(arena, child, sense, out, used)?;
    spread(top.row, gate, first, more, out, top.used as usize)
}
