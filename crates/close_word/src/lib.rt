// The items of one word of the list: each is visited and taken off, until none is left there. A row has `n` words for each value, 64 ticks in each.
// Assumes that the row codes are a program's, that the table has them, and that no mark is outside the window.
#![tactic(auto)]

ghost use Rattle.std.specs.Prelude.{◌≡◌, ◌+◌, ◌-◌, ◌*◌, ◌/◌, ◌%◌, ◌^◌, ◌<◌, ◌≤◌, length, get_or, set};
ghost use Rattle.spec_limits.specs.Limits.{code_kinds, code_numbers};
ghost use Rattle.spec_ticks.specs.Ticks.{Has};
ghost use Rattle.close_rules.specs.Codes.{LooksAt};
ghost use Rattle.close_looks.specs.Parts.{Sees, GatheredFor};
ghost use Rattle.close_list.specs.Items.{per};
ghost use Rattle.close_list.specs.Workable.{CanWork};
ghost use Rattle.close_word.specs.VisitSeries.{ItemAt, WorksList, OneWord, TakesOff, TakesOffLook};

use close_gates::visit;
use close_list::Closing;
use close_looks::{Child, child_at, visit_look};
use close_rules::{Kind, kind_of};
use close_store::store_child;
use spec_limits::{ABOVE, KINDS};
use table_words::Words;

// Clears bit k, which is set, of word j of the list.
fn clear_bit(todo: &mut [u64], j: usize, k: u64)
    requires { (j < length todo.old) × (k < 64) × Has (get_or todo.old j 0) k }
    ensures { todo.new ≡ set todo.old j (get_or todo.old j 0 - 2 ^ k) }
{
    let bit: u64 = 1 << k;
    todo[j] = todo[j] - bit;
}

// The first set bit of a word from bit `from` on; if there is none, its first at all.
fn next_bit(word: u64, from: u64) -> u64
    requires { (0 < word) × (from < 64) }
    ensures { (result < 64) × Has word result }
{
    let rest = word >> from;
    if rest == 0 {
        return u64::trailing_zeros(word) as u64;
    }
    from + u64::trailing_zeros(rest) as u64
}

// The first set bit of a word of the list from bit `from` on, if its row code starts as `kind` says, with its kind and its child; else 64. The bits are
// those of the rows from `start` on.
fn next_look(rows: &[u64], start: usize, word: u64, from: u64, kind: u64) -> u64
    requires { (from < 64) × (start + 64 ≤ length rows.now) }
    ensures { result < 64 → Has word result × (get_or rows.now (start + result) 0 % (code_kinds * code_numbers) ≡ kind) }
{
    let rest = word >> from;
    if rest == 0 {
        return 64;
    }
    let k = from + u64::trailing_zeros(rest) as u64;
    let w = rows[start + (k as usize)];
    if w % ABOVE != kind {
        return 64;
    }
    k
}

// Visits the look at `child` that bit k of word j of the list stands for, and takes it off the list after that. What it gives the child is joined to `given`.
fn take_look(
    on: &Closing,
    n: usize,
    i: usize,
    j: usize,
    k: u64,
    child: Child,
    given: Words,
    todo: &mut [u64],
    marks: &mut [u64],
) -> Words
    requires workable { CanWork on.now n todo.old marks.old }
    requires item_at { ItemAt on.now.count n child.q i j k todo.old × LooksAt on.now.rows.now (64 * i + k) child.row }
    requires sees { Sees n on.now.window marks.old child }
    ensures takes_off_look { TakesOffLook on.now.count on.now.rows.now on.now.window n j (GatheredFor child given) (GatheredFor child result) marks.old marks.new todo.old todo.new }
    ensures sees_still { Sees n on.now.window marks.new child }
{
    let row = 64 * i + (k as usize);
    let offset = on.rows[row] / ABOVE;
    let g = visit_look(on, n, row, child, offset, given, todo, marks);
    clear_bit(todo, j, k);
    g
}

// Visits the looks at one row whose bits follow each other in word j of the list, from bit `first` on. What they give the row is marked once, after them.
fn take_looks(
    on: &Closing,
    n: usize,
    i: usize,
    j: usize,
    first: u64,
    q: usize,
    todo: &mut [u64],
    marks: &mut [u64],
)
    requires workable { CanWork on.now n todo.old marks.old }
    requires item_at { ItemAt on.now.count n q i j first todo.old × (get_or on.now.rows.now (64 * i + first) 0 % code_kinds ≡ 3) }
    ensures { TakesOff on.now.count on.now.rows.now on.now.window n j marks.old marks.new todo.old todo.new }
{
    let start = 64 * i;
    let kind = on.rows[start + (first as usize)] % ABOVE;
    let c = (kind / KINDS) as usize;
    let child = child_at(marks, n, q, c, on.window);
    let mut given = Words { this: 0, other: 0 };
    let mut k = first;
    while k < 64 {
        given = take_look(on, n, i, j, k, child, given, todo, marks);
        k = next_look(on.rows, start, todo[j], k, kind);
    }
    store_child(on, n, q, c, true, given, todo, marks);
}

// Visits the item that bit k of word j of the list stands for, and takes it off the list after that; of a look also the looks at the same row after it.
fn take(
    on: &Closing,
    n: usize,
    i: usize,
    j: usize,
    k: u64,
    q: usize,
    todo: &mut [u64],
    marks: &mut [u64],
)
    requires workable { CanWork on.now n todo.old marks.old }
    requires item_at { ItemAt on.now.count n q i j k todo.old }
    ensures { TakesOff on.now.count on.now.rows.now on.now.window n j marks.old marks.new todo.old todo.new }
{
    let row = 64 * i + (k as usize);
    let w = on.rows[row];
    match kind_of(w) {
        Kind::Look => take_looks(on, n, i, j, k, q, todo, marks),
        _ => {
            visit(on, n, row, w, q, todo, marks);
            clear_bit(todo, j, k);
        }
    }
}

// Visits the items of word q in its i-th word of the list, round and round, until none is left there.
pub fn work_word(on: &Closing, n: usize, i: usize, q: usize, todo: &mut [u64], marks: &mut [u64])
    requires workable { CanWork on.now n todo.old marks.old }
    requires q_lt_n { (q < n) × (i < per on.now.count) }
    ensures { WorksList on.now.count on.now.rows.now on.now.window n (OneWord (q * per on.now.count + i)) marks.old marks.new todo.old todo.new }
{
    let stride = (on.count + 63) / 64;
    let j = q * stride + i;
    let mut from: u64 = 0;
    while todo[j] != 0 {
        let k = next_bit(todo[j], from);
        take(on, n, i, j, k, q, todo, marks);
        from = k;
    }
}
