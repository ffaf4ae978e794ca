// Ticks joined to a word of a row, and the items put on the list that rest on the word, if it changed. The item that is visited is none of them:
// its visit settles it.
// Assumes that the table, the lists of parents and the list of work have the row.
#![tactic(auto)]

ghost use Rattle.std.specs.Prelude.{true, ◌<◌};
ghost use Rattle.table_words.specs.WordTicks.{HasRow, Sides, Bits, Reads, one_if, Joins};
ghost use Rattle.close_parents.specs.Links.{Ended};
ghost use Rattle.close_list.specs.Items.{per, ParentsAt, ListFits};
ghost use Rattle.close_list.specs.Workable.{CanQueue};
ghost use Rattle.close_store.specs.Visits.{StoresWord, QueuesIf, LookItems};

use close_list::{Closing, enter_before, queue_parents, queue_resting};
use table_words::{Joined, Words, add_words};

// Word q of a child's row x: ticks of value u and of the other value.
pub fn store_child(
    on: &Closing,
    n: usize,
    q: usize,
    x: usize,
    u: bool,
    ticks: Words,
    todo: &mut [u64],
    marks: &mut [u64],
)
    requires queueable { CanQueue on.now n todo.old }
    requires x_lt_count { (x < on.now.count) × (q < n) × HasRow n marks.old x }
    ensures { StoresWord on.now.count on.now.rows.now n q x u ticks.this ticks.other marks.old marks.new todo.old todo.new }
{
    let j = add_words(marks, n, q, x, u, ticks);
    if j.changed {
        queue_resting(on, n, q, x, todo);
    }
}

// Word q of the visited row: the same, and only its parents have items that are put on the list.
pub fn store_own(
    on: &Closing,
    n: usize,
    q: usize,
    row: usize,
    u: bool,
    ticks: Words,
    todo: &mut [u64],
    marks: &mut [u64],
) -> Joined
    requires row_lt_count { (row < on.now.count) × (q < n) × HasRow n marks.old row }
    requires ended { Ended on.now.count on.now.heads.now on.now.nexts.now }
    requires list_fits { ListFits on.now.count n todo.old }
    ensures joins { Joins n (Sides row u q (Bits ticks.this) (Bits ticks.other)) marks.old marks.new (one_if result.changed) }
    ensures reads { Reads n marks.new q row u result.words.this result.words.other }
    ensures queues_if { QueuesIf (ParentsAt (per on.now.count) on.now.heads.now on.now.nexts.now row q) todo.old todo.new (one_if result.changed) }
{
    let j = add_words(marks, n, q, row, u, ticks);
    if j.changed {
        queue_parents(on, n, q, row, todo);
    }
    j
}

// Word p of a visited row that looks at another: the same of value true and false, and its own item before word m.
pub fn store_look(
    on: &Closing,
    n: usize,
    p: usize,
    m: usize,
    row: usize,
    ticks: Words,
    todo: &mut [u64],
    marks: &mut [u64],
) -> Joined
    requires row_lt_count { (row < on.now.count) × (p < n) × HasRow n marks.old row }
    requires ended { Ended on.now.count on.now.heads.now on.now.nexts.now }
    requires list_fits { ListFits on.now.count n todo.old }
    ensures joins { Joins n (Sides row true p (Bits ticks.this) (Bits ticks.other)) marks.old marks.new (one_if result.changed) }
    ensures reads { Reads n marks.new p row true result.words.this result.words.other }
    ensures queues_if { QueuesIf (LookItems (per on.now.count) on.now.heads.now on.now.nexts.now n row p m) todo.old todo.new (one_if result.changed) }
{
    let j = store_own(on, n, p, row, true, ticks, todo, marks);
    if j.changed {
        let stride = (on.count + 63) / 64;
        enter_before(todo, stride, n, m, row);
    }
    j
}
