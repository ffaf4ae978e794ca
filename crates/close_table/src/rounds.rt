// Closes a table: items of the list are visited, word of ticks by word of ticks, until none is left.
// Assumes that the row codes are a program's, that the table has them, and that no mark is outside the window.
ghost use Rattle.std.specs.Prelude.{◌≡◌, false, ◌↔◌, ℕ, ◌+◌, ◌-◌, ◌/◌, ◌≤◌, ◌<◌, length, get_or};
ghost use Rattle.close_table.specs.Closes.{ClosesAll};
ghost use Rattle.close_table.specs.Rounds.{InColumn, InColumns, turn};
ghost use Rattle.close_list.specs.Items.{SettledOffList};
ghost use Rattle.close_list.specs.Workable.{CanWork, Closable};
ghost use Rattle.close_word.specs.VisitSeries.{WorksList};

use close_list::{Closing, start};
use close_parents::{EDGES, link_rows};
use close_word::work_word;
use spec_limits::ROWS;

// The i-th of m words from below or, if not `up`, from above.
fn turned(up: bool, m: usize, i: usize) -> usize
    requires { i < m }
    ensures { result ≡ turn up m i }
{
    if up {
        return i;
    }
    m - 1 - i
}

// Visits the items of word q, in its words of the list from below or, if not `up`, from above.
fn work_column(on: &Closing, n: usize, up: bool, q: usize, todo: &mut [u64], marks: &mut [u64])
    requires workable { CanWork on.now n todo.old marks.old }
    requires q_lt_n { q < n }
    ensures { WorksList on.now.count on.now.rows.now on.now.window n (InColumn on.now.count q) marks.old marks.new todo.old todo.new }
{
    let stride = (on.count + 63) / 64;
    for i in 0..stride {
        let j = turned(up, stride, i);
        work_word(on, n, j, q, todo, marks);
    }
}

// Visits the items of every word; `up` is as in `work_column`.
fn work_round(on: &Closing, n: usize, up: bool, todo: &mut [u64], marks: &mut [u64])
    requires { CanWork on.now n todo.old marks.old }
    ensures { WorksList on.now.count on.now.rows.now on.now.window n (InColumns on.now.count n) marks.old marks.new todo.old todo.new }
{
    for q in 0..n {
        work_column(on, n, up, q, todo, marks);
    }
}

// Is an item left in the first m words of the list?
fn items_left(todo: &[u64], m: usize) -> bool
    requires { m ≤ length todo.now }
    ensures { (result ≡ false) ↔ ((j : ℕ) → j < m → get_or todo.now j 0 ≡ 0) }
{
    todo[..m].iter().any(|w| *w != 0)
}

// Rounds until no item is left: every row is settled in every word then. They go up and down in turn: what goes down from the tops meets so what goes up
// from the readings.
fn work_off(on: &Closing, n: usize, todo: &mut [u64], marks: &mut [u64])
    requires workable { CanWork on.now n todo.old marks.old }
    requires settled_off_list { SettledOffList on.now.count on.now.rows.now on.now.window n marks.old todo.old }
    ensures { ClosesAll on.now.count on.now.rows.now on.now.window n marks.old marks.new }
{
    let m = (on.count + 63) / 64 * n;
    let mut go = true;
    let mut up = false;
    while go {
        up = !up;
        work_round(on, n, up, todo, marks);
        go = items_left(todo, m);
    }
}

// Closes the table under the rules, although a clash appears: it has every consequence of its marks then, and no other mark.
// The list is lent, empty at best: an item that it holds before costs a visit and changes nothing else. The lists of parents are made already.
pub fn close_linked(on: &Closing, n: usize, todo: &mut [u64], marks: &mut [u64])
    requires { CanWork on.now n todo.old marks.old }
    ensures { ClosesAll on.now.count on.now.rows.now on.now.window n marks.old marks.new }
{
    start(on, n, todo, marks);
    work_off(on, n, todo, marks);
}

// The same, with lists of parents of its own.
pub fn close(
    rows: &[u64],
    count: usize,
    n: usize,
    window: usize,
    todo: &mut [u64],
    marks: &mut [u64],
)
    requires { Closable count n window rows.now todo.old marks.old }
    ensures { ClosesAll count rows.now window n marks.old marks.new }
{
    let mut heads = [0u16; ROWS];
    let mut nexts = [1u16; EDGES];
    link_rows(rows, count, &mut heads, &mut nexts);
    let on = Closing {
        rows,
        count,
        window,
        heads: &heads,
        nexts: &nexts,
    };
    close_linked(&on, n, todo, marks);
}
