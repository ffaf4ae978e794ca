// What a table tells: its facts, whether a row has both marks at one tick, and whether every mark is in the window.
// Assumes that the table has the rows.
#![tactic(auto)]

ghost use Rattle.std.specs.Prelude.{◌≡◌, true, ◌↔◌, ◌*◌, ◌^◌, ◌<◌, ◌≤◌, length};
ghost use Rattle.spec_tilco.specs.Inference.{Clash};
ghost use Rattle.spec_tilco.specs.Table.{words, Stands, Inside, facts};
ghost use Rattle.table_facts.specs.Clashes.{ClashIn};

use table_words::word_at;

// The facts of the first k rows, counted from their words.
pub fn count_facts(marks: &[u64], n: usize, k: usize) -> usize
    requires { (1 ≤ n) × (2 * k * n ≤ length marks.now) × (2 * k * n < 2 ^ 32) }
    ensures { result ≡ facts n k marks.now }
{
    let m = 2 * k * n;
    let mut sum: usize = 0;
    for w in &marks[..m] {
        sum += w.count_ones() as usize;
    }
    sum
}

// Has one of the table's rows both marks at one tick of word q?
fn column_clashes(marks: &[u64], count: usize, n: usize, q: usize) -> bool
    requires { (q < n) × (length marks.now ≡ 2 * count * n) }
    ensures { (result ≡ true) ↔ ClashIn n marks.now q }
{
    for row in 0..count {
        let yes = word_at(marks, n, q, row, true);
        let no = word_at(marks, n, q, row, false);
        if yes & no != 0 {
            return true;
        }
    }
    false
}

// Has one of the table's rows both marks at one tick?
pub fn clash_in(marks: &[u64], count: usize, n: usize) -> bool
    requires { length marks.now ≡ 2 * count * n }
    ensures { (result ≡ true) ↔ Clash (Stands n marks.now) }
{
    for q in 0..n {
        if column_clashes(marks, count, n, q) {
            return true;
        }
    }
    false
}

// Is every mark in the window? Only the last word of a row and value can have a tick past it.
pub fn inside_window(marks: &[u64], count: usize, n: usize, window: usize) -> bool
    requires { (length marks.now ≡ 2 * count * n) × (1 ≤ window) × (n ≡ words window) × (2 * count * n < 2 ^ 32) }
    ensures { (result ≡ true) ↔ Inside window (Stands n marks.now) }
{
    let last = n - 1;
    let ticks = window - 64 * last;
    if ticks == 64 {
        return true;
    }
    let blocks = 2 * count;
    for k in 0..blocks {
        if marks[k * n + last] >> ticks != 0 {
            return false;
        }
    }
    true
}
