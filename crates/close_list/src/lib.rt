// The list of work: an item, a row and a word of 64 ticks, put on it, every item that rests on a word that changed, and all that it starts with.
// The list has `stride` words for each word of ticks, one bit a row. Assumes that it has a bit for every item.
#![tactic(auto)]

ghost use Rattle.std.specs.Prelude.{◌≡◌, ℕ, ◌+◌, ◌*◌, ◌/◌, ◌<◌, ◌≤◌, length};
ghost use Rattle.table_words.specs.WordTicks.{HasRows};
ghost use Rattle.lower_rows.specs.RowCodes.{row_at};
ghost use Rattle.close_rules.specs.Codes.{Coded};
ghost use Rattle.close_parents.specs.Links.{Reach, Falls, Ended};
ghost use Rattle.close_list.specs.Items.{per, ListFits, Queues, OwnItem, ItemsOf, ParentsAt, QueuesResting, QueuesMarked, SettledOffList};
ghost use Rattle.close_list.specs.Workable.{CanQueue};

use close_rules::{Kind, kind_of};
use spec_limits::ABOVE;

// What stays while a table is closed: the row codes and how many there are, the window, and the lists of parents. How many words a row has for each
// value, n, is passed beside it, for the loops to have at hand.
#[derive(Clone, Copy)]
pub struct Closing<'a> {
    pub rows: &'a [u64],
    pub count: usize,
    pub window: usize,
    pub heads: &'a [u16],
    pub nexts: &'a [u16],
}

// Sets row y's bit in the words of the list from place i on.
fn enter(todo: &mut [u64], i: usize, y: usize)
    requires { i + y / 64 < length todo.old }
    ensures { Queues (λ j z. (j ≡ i) × (z ≡ y)) todo.old todo.new }
{
    let j = i + y / 64;
    let bit: u64 = 1 << ((y % 64) as u64);
    todo[j] = todo[j] | bit;
}

// The bits of every row in the list of parents that starts with `head`.
fn enter_parents(count: usize, head: usize, nexts: &[u16], todo: &mut [u64], i: usize)
    requires { Falls nexts.now (2 * count) head × (2 * count ≤ length nexts.now) × (i + per count ≤ length todo.old) }
    ensures { Queues (λ j y. (j ≡ i) × Reach nexts.now head y) todo.old todo.new }
{
    let mut h = head;
    while h != 0 {
        enter(todo, i, h / 2);
        h = nexts[h] as usize;
    }
}

// Row x's item at the word before word p of the window, if there is one.
pub fn enter_before(todo: &mut [u64], stride: usize, n: usize, p: usize, x: usize)
    requires n_in_bounds { stride * n ≤ length todo.old }
    requires x_bound { x / 64 < stride }
    ensures { Queues (ItemsOf stride x (λ q. (q < n) × (q + 1 ≡ p))) todo.old todo.new }
{
    if p == 0 {
        return;
    }
    if n < p {
        return;
    }
    enter(todo, (p - 1) * stride, x);
}

// The items of row x itself that rest on its word q: none of a signal, two of a look.
fn enter_own(on: &Closing, n: usize, q: usize, x: usize, todo: &mut [u64])
    requires coded { Coded on.now.count on.now.rows.now }
    requires x_lt_count { (x < on.now.count) × (q < n) }
    requires list_fits { ListFits on.now.count n todo.old }
    ensures { Queues (ItemsOf (per on.now.count) x (λ p. (p < n) × OwnItem (row_at on.now.rows.now x) q p)) todo.old todo.new }
{
    let w = on.rows[x];
    let stride = (on.count + 63) / 64;
    match kind_of(w) {
        Kind::Signal => {}
        Kind::Look => {
            let seen = q + (w / ABOVE / 64) as usize;
            enter_before(todo, stride, n, seen, x);
            enter_before(todo, stride, n, seen + 1, x);
        }
        _ => enter(todo, q * stride, x),
    }
}

// Puts the items at word q of row x's parents on the list.
pub fn queue_parents(on: &Closing, n: usize, q: usize, x: usize, todo: &mut [u64])
    requires x_lt_count { (x < on.now.count) × (q < n) }
    requires ended { Ended on.now.count on.now.heads.now on.now.nexts.now }
    requires list_fits { ListFits on.now.count n todo.old }
    ensures { Queues (ParentsAt (per on.now.count) on.now.heads.now on.now.nexts.now x q) todo.old todo.new }
{
    let stride = (on.count + 63) / 64;
    let head = on.heads[x] as usize;
    enter_parents(on.count, head, on.nexts, todo, q * stride);
}

// Row x's word q changed: puts every item that rests on it on the list.
pub fn queue_resting(on: &Closing, n: usize, q: usize, x: usize, todo: &mut [u64])
    requires queueable { CanQueue on.now n todo.old }
    requires x_lt_count { (x < on.now.count) × (q < n) }
    ensures { QueuesResting on.now.count on.now.rows.now n x q todo.old todo.new }
{
    enter_own(on, n, q, x, todo);
    queue_parents(on, n, q, x, todo);
}

// Puts every item on the list that rests on a mark in word q of a row.
fn start_column(on: &Closing, n: usize, q: usize, todo: &mut [u64], marks: &[u64])
    requires queueable { CanQueue on.now n todo.old }
    requires q_lt_n { (q < n) × HasRows n marks.now on.now.count }
    ensures { QueuesMarked on.now.count on.now.rows.now n (λ x p. (x < on.now.count) × (p ≡ q)) marks.now todo.old todo.new }
{
    let mut place = q;
    for x in 0..on.count {
        let yes = marks[place];
        let no = marks[place + n];
        if yes | no != 0 {
            queue_resting(on, n, q, x, todo);
        }
        place += 2 * n;
    }
}

// Puts every item on the list that rests on a mark: a rule has a premise, so what is not on it then is settled.
pub fn start(on: &Closing, n: usize, todo: &mut [u64], marks: &[u64])
    requires queueable { CanQueue on.now n todo.old }
    requires has_rows { HasRows n marks.now on.now.count }
    ensures { (W : ℕ) → SettledOffList on.now.count on.now.rows.now W n marks.now todo.new }
{
    for q in 0..n {
        start_column(on, n, q, todo, marks);
    }
}
