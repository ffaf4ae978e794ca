// The tops marked, and the table closed after them. Assumes of the table what closing it assumes, and that each top is a row.
ghost use Rattle.std.specs.Prelude.{◌≡◌, ℕ, ◌<◌, ◌≤◌, length, get_or};
ghost use Rattle.spec_tilco.specs.Table.{words};
ghost use Rattle.table_marks.specs.Puts.{AddsMarks};
ghost use Rattle.table_words.specs.WordTicks.{HasRow};
ghost use Rattle.close_table.specs.Closes.{RowTrue, TopMarks, ClosesWithTops};
ghost use Rattle.close_list.specs.Workable.{Workable, Closable};

use crate::rounds::{close, close_linked};
use close_list::Closing;
use table_words::{add_word, window_word};

// Marks a row true at every tick of the window.
fn mark_true(marks: &mut [u64], n: usize, row: usize, window: usize)
    requires { (n ≡ words window) × HasRow n marks.old row }
    ensures { AddsMarks n (RowTrue window row) marks.old marks.new }
{
    for q in 0..n {
        let ticks = window_word(window, q);
        add_word(marks, n, q, row, true, ticks);
    }
}

// Marks each of the first k rows in `tops` true at every tick of the window.
pub fn mark_tops(tops: &[u16], k: usize, n: usize, window: usize, marks: &mut [u64])
    requires k_in_bounds { (k ≤ length tops.now) × (n ≡ words window) }
    requires by_index { (i : ℕ) → i < k → HasRow n marks.old (get_or tops.now i 0) }
    ensures { AddsMarks n (TopMarks window tops.now k) marks.old marks.new }
{
    for top in &tops[..k] {
        mark_true(marks, n, *top as usize, window);
    }
}

// Marks the tops and closes the table: it has exactly what the rules lead to from the tops and its marks. The lists of parents are made already.
pub fn close_linked_with_tops(
    rows: &[u64],
    count: usize,
    tops: &[u16],
    k: usize,
    n: usize,
    window: usize,
    heads: &[u16],
    nexts: &[u16],
    todo: &mut [u64],
    marks: &mut [u64],
)
    requires workable { Workable count n window rows.now heads.now nexts.now todo.old marks.old }
    requires k_in_bounds { (k ≤ length tops.now) × ((i : ℕ) → i < k → get_or tops.now i 0 < count) }
    ensures { ClosesWithTops count rows.now tops.now k window n marks.old marks.new }
{
    mark_tops(tops, k, n, window, marks);
    let on = Closing {
        rows,
        count,
        window,
        heads,
        nexts,
    };
    close_linked(&on, n, todo, marks);
}

// The same, with lists of parents of its own.
pub fn close_with_tops(
    rows: &[u64],
    count: usize,
    tops: &[u16],
    k: usize,
    n: usize,
    window: usize,
    todo: &mut [u64],
    marks: &mut [u64],
)
    requires closable { Closable count n window rows.now todo.old marks.old }
    requires k_in_bounds { (k ≤ length tops.now) × ((i : ℕ) → i < k → get_or tops.now i 0 < count) }
    ensures { ClosesWithTops count rows.now tops.now k window n marks.old marks.new }
{
    mark_tops(tops, k, n, window, marks);
    close(rows, count, n, window, todo, marks);
}
