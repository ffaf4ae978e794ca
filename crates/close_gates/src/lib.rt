// A visit to an item of a row that is no look: the row's rules at the ticks of one word, once through (they add nothing to it then), and every item that
// rests on a word that they changed put on the list, but for the item itself. A row has `n` words for each value, 64 ticks in each; `q` is the number of a
// word in a row. Assumes that the row codes are a program's, that the lists of parents are theirs, and that the table and the list of work have them.
#![tactic(auto)]

ghost use Rattle.std.specs.Prelude.{◌≡◌, ℕ, ◌%◌, ◌<◌, get_or};
ghost use Rattle.spec_limits.specs.Limits.{code_kinds};
ghost use Rattle.spec_tilco.specs.Inference.{not_of, gate};
ghost use Rattle.table_words.specs.WordTicks.{HasRows};
ghost use Rattle.close_list.specs.Workable.{CanQueue, CanWork};
ghost use Rattle.close_store.specs.Visits.{VisitsNode, Visits};

use close_list::Closing;
use close_rules::{Kind, kind_of};
use close_store::{store_child, store_own};
use spec_limits::{ABOVE, KINDS, NUMBERS};
use table_words::{Words, words_at};

// A visit to a row that is an And (u is true) or an Or of the rows a and b.
pub fn visit_gate(
    on: &Closing,
    n: usize,
    row: usize,
    q: usize,
    a: usize,
    b: usize,
    u: bool,
    todo: &mut [u64],
    marks: &mut [u64],
)
    requires queueable { CanQueue on.now n todo.old }
    requires has_rows { HasRows n marks.old on.now.count × (row < on.now.count) × (q < n) × (a < row) × (b < row) }
    ensures { (W : ℕ) → VisitsNode (gate u a b) on.now.count on.now.rows.now row q W n marks.old marks.new todo.old todo.new }
{
    let r = words_at(marks, n, q, row, u);
    let x = words_at(marks, n, q, a, u);
    let y = words_at(marks, n, q, b, u);
    // the value u: what each child has then; the other value: what the row has then
    let left = x.this | r.this;
    let right = y.this | r.this;
    let part = r.other | x.other | y.other;
    let own = Words {
        this: left & right,
        other: part,
    };
    let first = Words {
        this: left,
        other: part & right,
    };
    let second = Words {
        this: right,
        other: part & left,
    };
    store_own(on, n, q, row, u, own, todo, marks);
    store_child(on, n, q, a, u, first, todo, marks);
    store_child(on, n, q, b, u, second, todo, marks);
}

// A visit to a row that is the opposite of the row x, its only child.
pub fn visit_not(
    on: &Closing,
    n: usize,
    row: usize,
    q: usize,
    x: usize,
    todo: &mut [u64],
    marks: &mut [u64],
)
    requires queueable { CanQueue on.now n todo.old }
    requires has_rows { HasRows n marks.old on.now.count × (row < on.now.count) × (q < n) × (x < row) }
    ensures { (W : ℕ) → VisitsNode (not_of x) on.now.count on.now.rows.now row q W n marks.old marks.new todo.old todo.new }
{
    let r = words_at(marks, n, q, row, true);
    let y = words_at(marks, n, q, x, true);
    let own = Words {
        this: y.other,
        other: y.this,
    };
    let child = Words {
        this: r.other,
        other: r.this,
    };
    store_own(on, n, q, row, true, own, todo, marks);
    store_child(on, n, q, x, true, child, todo, marks);
}

// A visit to item (r, q) of a row that is no look: the rules of row r, by its word w, at word q. A signal's row has none, and past the program's rows there are
// signals.
pub fn visit(
    on: &Closing,
    n: usize,
    r: usize,
    w: u64,
    q: usize,
    todo: &mut [u64],
    marks: &mut [u64],
)
    requires workable { CanWork on.now n todo.old marks.old }
    requires w_value { (w ≡ get_or on.now.rows.now r 0) × (w % code_kinds ≡ 3 → ⊥) × (q < n) }
    ensures { Visits on.now.count on.now.rows.now r q on.now.window n marks.old marks.new todo.old todo.new }
{
    let a = (w / KINDS % NUMBERS) as usize;
    let b = (w / ABOVE) as usize;
    match kind_of(w) {
        Kind::Signal => {}
        Kind::And => visit_gate(on, n, r, q, a, b, true, todo, marks),
        Kind::Or => visit_gate(on, n, r, q, a, b, false, todo, marks),
        Kind::Look | Kind::Not => visit_not(on, n, r, q, a, todo, marks),
    }
}
