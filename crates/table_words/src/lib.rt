// The words of a table of marks: reading them, joining ticks to them, and the window's ticks.
// Assumes that the table has the row.
#![tactic(auto)]

ghost use Rattle.std.specs.Prelude.{◌≡◌, ◌+◌, ◌*◌, ◌^◌, ◌<◌, get_or};
ghost use Rattle.spec_ticks.specs.Ticks.{block};
ghost use Rattle.table_words.specs.WordTicks.{HasRow, Ticks, Here, Sides, Reads, Bits, one_if, Joins};

use table_marks::place_of;

// Word q of a row's marks of one value.
pub fn word_at(marks: &[u64], n: usize, q: usize, row: usize, value: bool) -> u64
    requires { (q < n) × HasRow n marks.now row }
    ensures { result ≡ get_or marks.now (block row value * n + q) 0 }
{
    let i = place_of(n, q, row, value);
    marks[i]
}

// A word of a row's marks of one value, and that of the other value.
#[derive(Clone, Copy)]
pub struct Words {
    pub this: u64,
    pub other: u64,
}

// Word q of a row's marks of value u, and that of the other value.
pub fn words_at(marks: &[u64], n: usize, q: usize, row: usize, u: bool) -> Words
    requires { (q < n) × HasRow n marks.now row }
    ensures { Reads n marks.now q row u result.this result.other }
{
    let this = word_at(marks, n, q, row, u);
    let other = word_at(marks, n, q, row, !u);
    Words { this, other }
}

// Joins ticks to word q of a row's marks of one value: was one of them not there?
pub fn add_word(marks: &mut [u64], n: usize, q: usize, row: usize, value: bool, ticks: u64) -> bool
    requires { (q < n) × HasRow n marks.old row }
    ensures { Joins n (Here row value q (Bits ticks)) marks.old marks.new (one_if result) }
{
    let i = place_of(n, q, row, value);
    let old = marks[i];
    let new = old | ticks;
    if new == old {
        return false;
    }
    marks[i] = new;
    true
}

// A row's words after ticks were joined to them: was one of the ticks not there?
#[derive(Clone, Copy)]
pub struct Joined {
    pub changed: bool,
    pub words: Words,
}

// Joins ticks to word q of a row's marks of value u and of the other value.
pub fn add_words(marks: &mut [u64], n: usize, q: usize, row: usize, u: bool, ticks: Words) -> Joined
    requires { (q < n) × HasRow n marks.old row }
    ensures joins { Joins n (Sides row u q (Bits ticks.this) (Bits ticks.other)) marks.old marks.new (one_if result.changed) }
    ensures reads { Reads n marks.new q row u result.words.this result.words.other }
{
    let i = place_of(n, q, row, u);
    let j = place_of(n, q, row, !u);
    let a = marks[i];
    let b = marks[j];
    let this = a | ticks.this;
    let other = b | ticks.other;
    let words = Words { this, other };
    if (this ^ a) | (other ^ b) == 0 {
        return Joined {
            changed: false,
            words,
        };
    }
    marks[i] = this;
    marks[j] = other;
    Joined {
        changed: true,
        words,
    }
}

// The window's ticks in word q.
pub fn window_word(window: usize, q: usize) -> u64
    requires { q * 64 < window }
    ensures { Ticks q result (λ t. t < window) }
{
    let rest = window - q * 64;
    if 64 <= rest {
        return 0xffff_ffff_ffff_ffff;
    }
    0xffff_ffff_ffff_ffff >> (64 - rest)
}
