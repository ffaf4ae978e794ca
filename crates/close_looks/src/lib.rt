// A visit to a row that looks at another: its rules at the ticks of one word of its child, once through, and every item that rests on a word of the row
// that they changed put on the list. What they give the child is gathered, for the caller to mark: many looks have one child.
// Assumes that the row codes are a program's, that the lists of parents are theirs, and that the table and the list of work have them.
#![tactic(auto)]

ghost use Rattle.std.specs.Prelude.{◌≡◌, ◌+◌, ◌^◌, ◌<◌};
ghost use Rattle.spec_tilco.specs.Table.{words};
ghost use Rattle.table_words.specs.WordTicks.{HasRow};
ghost use Rattle.close_shift.specs.ShiftedWords.{end_of, apart};
ghost use Rattle.close_parents.specs.Links.{Ended};
ghost use Rattle.close_list.specs.Items.{ListFits};
ghost use Rattle.close_list.specs.Workable.{CanWork};
ghost use Rattle.close_store.specs.Visits.{VisitsLook};
ghost use Rattle.close_looks.specs.Parts.{Sees, GatheredFor, next_of, LooksFrom};

use close_list::Closing;
use close_shift::{join, shift, window_beside};
use close_store::store_look;
use table_words::{Words, window_word, words_at};

// A row that looks see: the number of a word of it, its marks there, and the window's ticks there.
#[derive(Clone, Copy)]
pub struct Child {
    pub row: usize,
    pub q: usize,
    pub words: Words,
    pub here: u64,
}

// Word q of a row, for looks at it.
pub fn child_at(marks: &[u64], n: usize, q: usize, row: usize, window: usize) -> Child
    requires { (q < n) × HasRow n marks.now row × (n ≡ words window) }
    ensures { (result.row ≡ row) × (result.q ≡ q) × Sees n window marks.now result }
{
    let words = words_at(marks, n, q, row, true);
    let here = window_word(window, q);
    Child {
        row,
        q,
        words,
        here,
    }
}

// Where the words stand that a part of a look's rules is about: the row's is e - offset / 64, the child's ticks stand k lower in theirs or else higher, and
// another item of the row that rests on its word is the one before word m.
#[derive(Drop)]
struct Part {
    e: usize,
    k: u64,
    m: usize,
}

// The part about the lower ticks of the child's word q (`up`: they go up into the row's word), or else about the upper ones.
fn part_of(q: usize, offset: u64, up: bool) -> Part
    requires { q + 2 < 2 ^ 64 }
    ensures { (result.e ≡ end_of up q) × (result.k ≡ apart up offset) × (result.m ≡ next_of up q) }
{
    let low = offset % 64;
    if up {
        return Part {
            e: q,
            k: 64 - low,
            m: q,
        };
    }
    Part {
        e: q + 1,
        k: low,
        m: q + 2,
    }
}

// A part of a look's rules, if the row has such a word. What they give the child is joined to `given`.
fn look_part(
    on: &Closing,
    n: usize,
    row: usize,
    child: Child,
    offset: u64,
    up: bool,
    given: Words,
    todo: &mut [u64],
    marks: &mut [u64],
) -> Words
    requires row_lt_count { (row < on.now.count) × HasRow n marks.old row × (child.row < row) × (n ≡ words on.now.window) }
    requires sees { Sees n on.now.window marks.old child }
    requires ended { Ended on.now.count on.now.heads.now on.now.nexts.now }
    requires list_fits { ListFits on.now.count n todo.old }
    ensures looks_from { LooksFrom (end_of up child.q) (next_of up child.q) on.now.count on.now.heads.now on.now.nexts.now row offset child.row child.q on.now.window n (GatheredFor child given) (GatheredFor child result) marks.old marks.new todo.old todo.new }
    ensures sees_still { Sees n on.now.window marks.new child }
{
    let q = child.q;
    let part = part_of(q, offset, up);
    let back = (offset / 64) as usize;
    if part.e < back {
        return given;
    }
    let p = part.e - back;
    if n <= p {
        return given;
    }
    if part.k == 64 {
        return given;
    }
    let seen = child.words;
    let there = window_beside(on.window, p, q, child.here);
    let ticks = shift(seen, part.k, up, there);
    let j = store_look(on, n, p, part.m, row, ticks, todo, marks);
    let own = j.words;
    let to_child = shift(own, part.k, !up, child.here);
    join(given, to_child)
}

// A visit to a row that looks at a child, at an offset written with 64 added, for the ticks of the child's word at hand. What it gives the child is joined to
// `given`.
pub fn visit_look(
    on: &Closing,
    n: usize,
    row: usize,
    child: Child,
    offset: u64,
    given: Words,
    todo: &mut [u64],
    marks: &mut [u64],
) -> Words
    requires workable { CanWork on.now n todo.old marks.old }
    requires row_lt_count { (row < on.now.count) × (child.row < row) }
    requires sees { Sees n on.now.window marks.old child }
    ensures visits_look { VisitsLook offset child.row on.now.count on.now.rows.now row child.q on.now.window n (GatheredFor child given) (GatheredFor child result) marks.old marks.new todo.old todo.new }
    ensures sees_still { Sees n on.now.window marks.new child }
{
    let g = look_part(on, n, row, child, offset, true, given, todo, marks);
    look_part(on, n, row, child, offset, false, g, todo, marks)
}
