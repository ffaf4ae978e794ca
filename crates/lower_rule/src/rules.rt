// A rule's own formula and the defining rules of its hidden signals, each in its true sense: a sheet's rows are these two, rule after
// rule. `at` is the next free place of the tops, `used` the rows in use.
ghost use Rattle.std.specs.Prelude.{[], ◌∷◌, ◌++◌, ◌+◌, ◌≤◌, ◌<◌, length};
ghost use Rattle.spec_tilco.specs.Lowering.{lows};
ghost use Rattle.read_arena.specs.NodeRules.{form_at, definings_at, NodeIn, NodesIn};
ghost use Rattle.lower_rows.specs.RowWrites.{RowBuffer};
ghost use Rattle.lower_rule.specs.RuleRows.{buffers, RuleIn, whole_at, LowersAll};

use lower_formula::lower;
use read_arena::{Node, node_at};

// How many tops and how many rows are in use after several formulas.
#[derive(Clone, Copy)]
pub struct InUse {
    pub tops: usize,
    pub rows: usize,
}

// The formula at a node, in its true sense.
pub fn lower_rule(
    arena: &[u16],
    node: usize,
    tops: &mut [u16],
    at: usize,
    out: &mut [u64],
    used: usize,
) -> Option<InUse>
    requires node_in { NodeIn arena.now node }
    requires top_free { at < length tops.old }
    requires row_buffer { RowBuffer out.old used }
    ensures { LowersAll (lows (form_at arena.now node ∷ [])) used at (buffers out.old tops.old) (buffers out.new tops.new) result }
{
    let lowered = lower(arena, node, true, out, used)?;
    tops[at] = lowered.row;
    Some(InUse {
        tops: at + 1,
        rows: lowered.used as usize,
    })
}

// The defining rules of the hidden signals of the rule at a node, in the order written. That of a since or an until is just before it. `!`, `@` and
// `?` are passed over: what is inside has the same.
#[cycle(definings)]
pub fn lower_definings(
    arena: &[u16],
    node: usize,
    tops: &mut [u16],
    at: usize,
    out: &mut [u64],
    used: usize,
) -> Option<InUse>
    requires node_in { NodeIn arena.now node }
    requires tops_free { at + length (definings_at arena.now node) ≤ length tops.old }
    requires row_buffer { RowBuffer out.old used }
    ensures { LowersAll (lows (definings_at arena.now node)) used at (buffers out.old tops.old) (buffers out.new tops.new) result }
{
    let mut inner = node;
    loop {
        match node_at(arena, inner) {
            Node::Name(_) => return Some(InUse {
                tops: at,
                rows: used,
            }),
            Node::Deny(x) => inner = x,
            Node::Pair(_, x, y) => return both_definings(arena, x, y, tops, at, out, used),
            Node::Time(_, x, _, _) => inner = x,
            Node::Keep(_, x, y, _) => {
                let own = lower_rule(arena, inner - 1, tops, at, out, used)?;
                return both_definings(arena, x, y, tops, own.tops, out, own.rows);
            }
        }
    }
}

// The defining rules of two rules, left before right.
#[cycle(definings)]
fn both_definings(
    arena: &[u16],
    left: usize,
    right: usize,
    tops: &mut [u16],
    at: usize,
    out: &mut [u64],
    used: usize,
) -> Option<InUse>
    requires nodes_in { NodesIn arena.now left right }
    requires tops_free { at + length (definings_at arena.now left ++ definings_at arena.now right) ≤ length tops.old }
    requires row_buffer { RowBuffer out.old used }
    ensures { LowersAll (lows (definings_at arena.now left ++ definings_at arena.now right)) used at (buffers out.old tops.old) (buffers out.new tops.new) result }
{
    let lefts = lower_definings(arena, left, tops, at, out, used)?;
    lower_definings(arena, right, tops, lefts.tops, out, lefts.rows)
}

// A rule's own formula, then the defining rules of its hidden signals, of which there are so many.
pub fn lower_whole_rule(
    arena: &[u16],
    node: usize,
    hidden: usize,
    tops: &mut [u16],
    at: usize,
    out: &mut [u64],
    used: usize,
) -> Option<InUse>
    requires rule_in { RuleIn arena.now node hidden }
    requires tops_free { at + 1 + hidden ≤ length tops.old }
    requires row_buffer { RowBuffer out.old used }
    ensures { LowersAll (whole_at arena.now node) used at (buffers out.old tops.old) (buffers out.new tops.new) result }
{
    let own = lower_rule(arena, node, tops, at, out, used)?;
    if hidden == 0 {
        return Some(own);
    }
    lower_definings(arena, node, tops, own.tops, out, own.rows)
}
