// The signs at tick 0, and the changes after it. Only words are looked at, and the ticks at which a sign changes: no other tick costs anything.
// Assumes that the table has the signals' rows, in words that cover the window, and that the places of a text can be counted.
ghost use Rattle.std.specs.Prelude.{◌<◌};
ghost use Rattle.spec_limits.specs.Limits.{most_signals};
ghost use Rattle.write_bytes.specs.Writes.{Counted};
ghost use Rattle.write_bytes.specs.Writers.{Writes};
ghost use Rattle.spec_dump.specs.DumpTexts.{event_text};
ghost use Rattle.spec_dump.specs.DumpTexts as line;
ghost use Rattle.dump_changes.specs.WordSigns.{Changes};
ghost use Rattle.dump_text.specs.TableTexts.{CanDump, first_text, changes_text, tick_text, word_text, later_text};

use dump_changes::{row_sign, word_changes};
use table_words::window_word;
use write_bytes::Writer;
use write_lines::write_number_line;

// The line of a signal's sign.
fn write_sign(w: &mut Writer, signal: usize, sign: u8)
    requires { (signal < most_signals) × Counted w.old.used (event_text (line.sign signal sign)) }
    ensures { Writes (event_text (line.sign signal sign)) w.old w.new }
{
    let line = [sign, (33 + signal) as u8, b'\n'];
    w.push_text(&line);
}

// Each signal's sign at tick 0.
pub fn write_first(w: &mut Writer, table: &[u64], n: usize, k: usize, window: usize)
    requires { CanDump k window n table.now × Counted w.old.used (first_text k n table.now 0) }
    ensures { Writes (first_text k n table.now 0) w.old w.new }
{
    for x in 0..k {
        let sign = row_sign(table, n, x, 0);
        write_sign(w, x, sign);
    }
}

// The signs that change at a tick, of all signals.
fn write_differing(w: &mut Writer, table: &[u64], n: usize, k: usize, window: usize, tick: usize)
    requires { CanDump k window n table.now × (tick < window) × Counted w.old.used (changes_text k n table.now tick 0) }
    ensures { Writes (changes_text k n table.now tick 0) w.old w.new }
{
    let earlier = tick.saturating_sub(1);
    for x in 0..k {
        let sign = row_sign(table, n, x, tick);
        let old = row_sign(table, n, x, earlier);
        if sign != old {
            write_sign(w, x, sign);
        }
    }
}

// The time and the signs of a tick at which a sign changes.
fn write_tick(w: &mut Writer, table: &[u64], n: usize, k: usize, window: usize, tick: usize)
    requires { CanDump k window n table.now × (tick < window) × Changes n table.now k tick × Counted w.old.used (tick_text k n table.now tick) }
    ensures { Writes (tick_text k n table.now tick) w.old w.new }
{
    write_number_line(w, b"#", tick);
    write_differing(w, table, n, k, window, tick);
}

// The changes at the ticks of word q: the lowest tick of those that are left is the next.
fn write_word(w: &mut Writer, table: &[u64], n: usize, k: usize, window: usize, q: usize)
    requires { CanDump k window n table.now × (q < n) × Counted w.old.used (word_text k window n table.now q) }
    ensures { Writes (word_text k window n table.now q) w.old w.new }
{
    let mut left = word_changes(table, n, q, k) & window_word(window, q);
    let mut next = 64 * q;
    while left != 0 {
        let b = left.trailing_zeros() as usize;
        let tick = next + b;
        write_tick(w, table, n, k, window, tick);
        left = (left >> b) >> 1;
        next = tick + 1;
    }
}

// The changes at every tick, word by word.
pub fn write_changes(w: &mut Writer, table: &[u64], n: usize, k: usize, window: usize)
    requires { CanDump k window n table.now × Counted w.old.used (later_text k window n table.now 0) }
    ensures { Writes (later_text k window n table.now 0) w.old w.new }
{
    for q in 0..n {
        write_word(w, table, n, k, window, q);
    }
}
