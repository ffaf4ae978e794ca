// The lists of parents: for each row the rows that have it for a child. Edge 2 r is row r's to its first child, 2 r + 1 to its second; `heads` has
// the edge with which each row's list starts, and `nexts` the one after each edge. 0 ends a list: row 0 is a signal's, and has no edge.
// Assumes that the row codes are a program's, of which there are at most `ROWS`.
#![tactic(auto)]

ghost use Rattle.std.specs.Prelude.{◌≡◌, ℕ, ◌+◌, ◌*◌, ◌<◌, ◌≤◌, length, get_or, set};
ghost use Rattle.spec_limits.specs.Limits.{most_rows};
ghost use Rattle.close_rules.specs.Codes.{Coded};
ghost use Rattle.close_parents.specs.Links.{LinkedTo, Linked};

use close_rules::{Kind, kind_of};
use spec_limits::{ABOVE, KINDS, NUMBERS, ROWS};

// Each row has at most two edges.
pub const EDGES: usize = 2 * ROWS;

// Puts an edge before row x's list.
fn link(heads: &mut [u16], nexts: &mut [u16], x: usize, edge: usize)
    requires { (x < length heads.old) × (edge < length nexts.old) × (edge < 2 * most_rows) }
    ensures heads_after { heads.new ≡ set heads.old x edge }
    ensures nexts_after { nexts.new ≡ set nexts.old edge (get_or heads.old x 0) }
{
    nexts[edge] = heads[x];
    heads[x] = edge as u16;
}

// Puts row r into the lists of its children.
fn link_row(rows: &[u64], count: usize, r: usize, heads: &mut [u16], nexts: &mut [u16])
    requires coded { Coded count rows.now × (r < count) × (count ≤ most_rows) }
    requires linked_to { LinkedTo count rows.now heads.old nexts.old r }
    ensures { LinkedTo count rows.now heads.new nexts.new (r + 1) }
{
    let w = rows[r];
    let a = (w / KINDS % NUMBERS) as usize;
    let b = (w / ABOVE) as usize;
    let edge = 2 * r;
    match kind_of(w) {
        Kind::Signal => {}
        Kind::And | Kind::Or => {
            link(heads, nexts, a, edge);
            link(heads, nexts, b, edge + 1);
        }
        Kind::Look | Kind::Not => link(heads, nexts, a, edge),
    }
}

// Makes the lists of every row's parents, where no row has a list yet.
pub fn link_rows(rows: &[u64], count: usize, heads: &mut [u16], nexts: &mut [u16])
    requires coded { Coded count rows.now × (count ≤ most_rows) }
    requires count_in_bounds { (count ≤ length heads.old) × (2 * count ≤ length nexts.old) × ((x : ℕ) → x < count → get_or heads.old x 0 ≡ 0) }
    ensures { Linked count rows.now heads.new nexts.new }
{
    for r in 0..count {
        link_row(rows, count, r, heads, nexts);
    }
}
