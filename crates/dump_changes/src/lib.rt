// The signs of a table's rows, and the ticks at which they change, a word of 64 ticks at once. Assumes that the table has the rows.
#![tactic(auto)]

ghost use Rattle.std.specs.Prelude.{◌≡◌, ◌*◌, ◌<◌};
ghost use Rattle.table_words.specs.WordTicks.{HasRow, HasRows, Ticks};
ghost use Rattle.dump_changes.specs.WordSigns.{row_sign, Differs, Changes};

use table_marks::has_mark;
use table_words::word_at;

// The sign of a row at a tick.
pub fn row_sign(table: &[u64], n: usize, row: usize, tick: usize) -> u8
    requires { (tick < n * 64) × HasRow n table.now row }
    ensures { result ≡ row_sign n table.now row tick }
{
    if has_mark(table, n, row, tick, true) {
        return b'1';
    }
    if has_mark(table, n, row, tick, false) {
        return b'0';
    }
    b'x'
}

// The ticks of word q at which a row's sign changes. It is told by the true marks and by the marks of either value: where neither set changes, the sign
// does not. Before the first tick of the window the signs are as there.
fn row_changes(table: &[u64], n: usize, q: usize, row: usize) -> u64
    requires { (q < n) × HasRow n table.now row }
    ensures { Ticks q result (λ t. Differs n table.now t row) }
{
    let yes = word_at(table, n, q, row, true);
    let either = yes | word_at(table, n, q, row, false);
    if q == 0 {
        return (yes ^ ((yes << 1) | (yes & 1))) | (either ^ ((either << 1) | (either & 1)));
    }
    let yes_before = word_at(table, n, q - 1, row, true);
    let either_before = yes_before | word_at(table, n, q - 1, row, false);
    (yes ^ ((yes << 1) | (yes_before >> 63))) | (either ^ ((either << 1) | (either_before >> 63)))
}

// The ticks of word q at which the sign of one of the first k rows changes.
pub fn word_changes(table: &[u64], n: usize, q: usize, k: usize) -> u64
    requires { (q < n) × HasRows n table.now k }
    ensures { Ticks q result (Changes n table.now k) }
{
    let mut ticks: u64 = 0;
    for row in 0..k {
        ticks |= row_changes(table, n, q, row);
    }
    ticks
}
