// The lines up to `#0`, and the whole dump. Assumes that the names, which stand at `places` of the sheet text `s`, are short.
ghost use Rattle.std.specs.Prelude.{◌<◌, ◌≤◌, length};
ghost use Rattle.spec_limits.specs.Limits.{most_signals};
ghost use Rattle.read_names.specs.Spellings.{spelling_at, names_at};
ghost use Rattle.read_names.specs.Slices.{names_of};
ghost use Rattle.write_bytes.specs.Writes.{Counted, Wrote};
ghost use Rattle.write_bytes.specs.Writers.{Writes};
ghost use Rattle.spec_dump.specs.DumpTexts.{var_text, vars_text, head_text, dump_text};
ghost use Rattle.spec_dump.specs.TableSigns.{sign_events};
ghost use Rattle.dump_changes.specs.WordSigns.{row_sign};
ghost use Rattle.dump_text.specs.TableTexts.{CanDump, ShortNames};

use crate::changes::{write_changes, write_first};
use write_bytes::Writer;
use write_lines::write_word;

// The line of signal `x`, whose name stands at `name` of the sheet text.
fn write_var(w: &mut Writer, s: &[u8], name: usize, x: usize)
    requires { (x < most_signals) × Counted w.old.used (var_text x (spelling_at s.now name)) }
    ensures { Writes (var_text x (spelling_at s.now name)) w.old w.new }
{
    w.push_text(b"$var wire 1 ");
    w.push((33 + x) as u8);
    w.push(b' ');
    write_word(w, s, name);
    w.push_text(b" $end\n");
}

// The lines of all signals.
fn write_vars(w: &mut Writer, s: &[u8], places: &[u16])
    requires { (length places.now ≤ most_signals) × Counted w.old.used (vars_text 0 (names_at s.now places.now)) }
    ensures { Writes (vars_text 0 (names_of s places)) w.old w.new }
{
    for (x, name) in places.iter().enumerate() {
        write_var(w, s, *name as usize, x);
    }
}

// The lines up to `#0`.
fn write_head(w: &mut Writer, s: &[u8], places: &[u16])
    requires { (length places.now ≤ most_signals) × Counted w.old.used (head_text (names_at s.now places.now)) }
    ensures { Writes (head_text (names_of s places)) w.old w.new }
{
    w.push_text(b"$timescale 1 s $end\n");
    w.push_text(b"$scope module sheet $end\n");
    write_vars(w, s, places);
    w.push_text(b"$upscope $end\n");
    w.push_text(b"$enddefinitions $end\n");
    w.push_text(b"#0\n");
}

// The dump of a table. Its length is answered.
pub fn write_text(
    s: &[u8],
    places: &[u16],
    table: &[u64],
    n: usize,
    window: usize,
    out: &mut [u8],
) -> usize
    requires { CanDump (length places.now) window n table.now × ShortNames (names_at s.now places.now) }
    ensures { Wrote (dump_text (names_of s places) (sign_events (row_sign n table.now) (length places.now) window)) 0 out.old out.new result }
{
    let k = places.len();
    let mut w = Writer::new(out);
    write_head(&mut w, s, places);
    write_first(&mut w, table, n, k, window);
    write_changes(&mut w, table, n, k, window);
    w.length()
}
