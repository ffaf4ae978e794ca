// A row's marks at every tick of a span, put into a lent table of words: it takes as many steps as the span has words. Assumes that the table has the row.
#![tactic(auto)]

ghost use Rattle.std.specs.Prelude.{◌≡◌, ◌+◌, ◌*◌, ◌/◌, ◌<◌, ◌≤◌, length};
ghost use Rattle.table_marks.specs.Puts.{AddsMarks};
ghost use Rattle.table_words.specs.WordTicks.{HasRow, Ticks};
ghost use Rattle.table_spans.specs.SpanMarks.{Between};

use table_words::add_word;

// The ticks from `first` to `last` in word q, which has both.
fn span_word(first: usize, last: usize, q: usize) -> u64
    requires { (first / 64 ≡ q) × (last / 64 ≡ q) }
    ensures { Ticks q result (λ t. (first ≤ t) × (t ≤ last)) }
{
    let late: u64 = 0xffff_ffff_ffff_ffff << (first % 64);
    let early: u64 = 0xffff_ffff_ffff_ffff >> (63 - last % 64);
    late & early
}

// Puts a row's marks of one value at the ticks from `first` to `last` of one word into the table.
fn put_in_word(table: &mut [u64], n: usize, row: usize, value: bool, first: usize, last: usize)
    requires { (first / 64 ≡ last / 64) × (last < n * 64) × HasRow n table.old row }
    ensures { AddsMarks n (Between row value first last) table.old table.new }
{
    let q = first / 64;
    let ticks = span_word(first, last, q);
    add_word(table, n, q, row, value, ticks);
}

// Puts a row's marks of one value at every tick from `first` to `last` into the table.
pub fn put_span(table: &mut [u64], n: usize, row: usize, value: bool, first: usize, last: usize)
    requires { (first ≤ last) × (last < n * 64) × (2 * (row + 1) * n ≤ length table.old) }
    ensures { AddsMarks n (Between row value first last) table.old table.new }
{
    let mut from = first;
    while from / 64 < last / 64 {
        let next = (from / 64 + 1) * 64;
        put_in_word(table, n, row, value, from, next - 1);
        from = next;
    }
    put_in_word(table, n, row, value, from, last);
}
