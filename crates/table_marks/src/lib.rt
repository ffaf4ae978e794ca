// Marks in a lent table of words, put and looked up: a row has `n` words for each value, 64 ticks in each. Assumes nothing of the words.
#![tactic(auto)]

ghost use Rattle.std.specs.Prelude.{◌≡◌, true, [], ◌∷◌, ◌↔◌, ◌+◌, ◌*◌, ◌^◌, ◌<◌, ◌≤◌, length};
ghost use Rattle.spec_limits.specs.Limits.{most_ticks};
ghost use Rattle.spec_ticks.specs.Ticks.{block};
ghost use Rattle.spec_tilco.specs.Inference.{mark, Clash};
ghost use Rattle.spec_tilco.specs.Table.{words, Stands, Asked};
ghost use Rattle.table_marks.specs.Puts.{Puts};
ghost use Rattle.table_marks.specs.Values.{value_says};

use spec_limits::{ROWS, TICKS};

// most_words: of a row, for each value.
pub const WORDS: usize = (TICKS + 63) / 64;

// most_table_words
pub const TABLE_WORDS: usize = 2 * ROWS * WORDS;

// The words that a row has for each value.
pub fn words_of(window: usize) -> usize
    requires { window ≤ most_ticks }
    ensures { result ≡ words window }
{
    (window + 63) / 64
}

// The place of word q of a row's marks of one value.
pub fn place_of(n: usize, q: usize, row: usize, value: bool) -> usize
    requires { (q < n) × (2 * (row + 1) * n < 2 ^ 64) }
    ensures { (result ≡ block row value * n + q) × (result < 2 * (row + 1) * n) }
{
    let first = 2 * row * n + q;
    if value {
        return first;
    }
    first + n
}

// Puts one mark into the table.
pub fn put_mark(table: &mut [u64], n: usize, row: usize, tick: usize, value: bool)
    requires { (tick < n * 64) × (2 * (row + 1) * n ≤ length table.old) }
    ensures { Puts n (mark row tick value ∷ []) table.old table.new }
{
    let i = place_of(n, tick / 64, row, value);
    let t = tick % 64;
    let w = table[i];
    table[i] = w | (1 << t);
}

// Does one mark stand in the table?
pub fn has_mark(table: &[u64], n: usize, row: usize, tick: usize, value: bool) -> bool
    requires { (tick < n * 64) × (2 * (row + 1) * n ≤ length table.now) }
    ensures { (result ≡ true) ↔ Stands n table.now (mark row tick value) }
{
    let i = place_of(n, tick / 64, row, value);
    let b = tick % 64;
    let w = table[i];
    (w >> b) % 2 == 1
}

// What a cell says.
#[derive(Clone, Copy, PartialEq, Eq)]
pub enum Value {
    Unsettled,
    True,
    False,
    Contradiction,
}

// What the table says of a row at a tick, where `clash` tells whether any row clashes.
pub fn value_at(table: &[u64], n: usize, row: usize, tick: usize, clash: bool) -> Value
    requires { (tick < n * 64) × (2 * (row + 1) * n ≤ length table.now) × ((clash ≡ true) ↔ Clash (Stands n table.now)) }
    ensures { Asked (Stands n table.now) row tick (value_says result) }
{
    if clash {
        return Value::Contradiction;
    }
    let holds = has_mark(table, n, row, tick, true);
    if holds {
        return Value::True;
    }
    let fails = has_mark(table, n, row, tick, false);
    if fails {
        return Value::False;
    }
    Value::Unsettled
}
