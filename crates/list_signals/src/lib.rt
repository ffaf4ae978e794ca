// The marks of signals, one sign a tick. The table has the signals' rows, its words cover the window, `clash` is told rightly, and the places of
// a text can be counted, whatever the marks are.
#![tactic(auto)]

ghost use Rattle.std.specs.Prelude.{◌≡◌, ℕ, ◌+◌, ◌<◌, length};
ghost use Rattle.read_bytes.specs.Bytes.{bytes};
ghost use Rattle.read_names.specs.Spellings.{spelling_at, names_at};
ghost use Rattle.spec_tilco.specs.Lists.{All};
ghost use Rattle.spec_tilco.specs.Table.{Stands, Answer, Asked};
ghost use Rattle.write_bytes.specs.Writes.{Counted};
ghost use Rattle.write_bytes.specs.Writers.{Writes};
ghost use Rattle.write_lines.specs.LineTexts.{line_text};
ghost use Rattle.list_signals.specs.Signals.{Listable, AnswersAt, Answers, sign_byte, signs, signal_text, signals_text};

use table_marks::{Value, value_at};
use write_bytes::Writer;
use write_lines::write_name_line;

// The sign of a signal at a tick.
pub fn sign_at(table: &[u64], n: usize, signal: usize, tick: usize, clash: bool) -> u8
    requires { Listable (signal + 1) (tick + 1) n table.now clash }
    ensures { (a : Answer) → Asked (Stands n table.now) signal tick a → result ≡ sign_byte a }
{
    let v = value_at(table, n, signal, tick, clash);
    match v {
        Value::Unsettled => b'?',
        Value::True => b'1',
        Value::False => b'0',
        Value::Contradiction => b'x',
    }
}

// The signs of a signal, one a tick of the window.
fn write_signs(w: &mut Writer, table: &[u64], n: usize, signal: usize, window: usize, clash: bool)
    requires { Listable (signal + 1) window n table.now clash × ((f : ℕ → Answer) → Counted w.old.used (signs f 0 window)) }
    ensures { (f : ℕ → Answer) → AnswersAt (Stands n table.now) signal window f → Writes (signs f 0 window) w.old w.new }
{
    for t in 0..window {
        let sign = sign_at(table, n, signal, t, clash);
        w.push(sign);
    }
}

// The line of a signal's marks.
pub fn write_marks_line(
    w: &mut Writer,
    table: &[u64],
    n: usize,
    signal: usize,
    window: usize,
    clash: bool,
)
    requires { Listable (signal + 1) window n table.now clash × ((f : ℕ → Answer) → Counted w.old.used (line_text (bytes "marks=") (signs f 0 window))) }
    ensures { (f : ℕ → Answer) → AnswersAt (Stands n table.now) signal window f → Writes (line_text (bytes "marks=") (signs f 0 window)) w.old w.new }
{
    w.push_text(b"marks=");
    write_signs(w, table, n, signal, window, clash);
    w.push(b'\n');
}

// The two lines of a signal, whose name stands at a place of the text.
fn write_signal(
    w: &mut Writer,
    s: &[u8],
    name: usize,
    table: &[u64],
    n: usize,
    signal: usize,
    window: usize,
    clash: bool,
)
    requires { Listable (signal + 1) window n table.now clash × ((f : ℕ → Answer) → Counted w.old.used (signal_text (spelling_at s.now name) (signs f 0 window))) }
    ensures { (f : ℕ → Answer) → AnswersAt (Stands n table.now) signal window f → Writes (signal_text (spelling_at s.now name) (signs f 0 window)) w.old w.new }
{
    write_name_line(w, s, name);
    write_marks_line(w, table, n, signal, window, clash);
}

// The lines of the signals with these numbers. The signals' names stand at these places of the text.
pub fn write_signals(
    w: &mut Writer,
    s: &[u8],
    places: &[u16],
    signals: &[u64],
    window: usize,
    n: usize,
    table: &[u64],
    clash: bool,
)
    requires { Listable (length places.now) window n table.now clash × All (λ x. x < length places.now) signals.now × ((f : ℕ → ℕ → Answer) → Counted w.old.used (signals_text window f (names_at s.now places.now) signals.now)) }
    ensures { (f : ℕ → ℕ → Answer) → Answers (Stands n table.now) (length places.now) window f → Writes (signals_text window f (names_at s.now places.now) signals.now) w.old w.new }
{
    for signal in signals {
        let x = *signal as usize;
        let name = places[x] as usize;
        write_signal(w, s, name, table, n, x, window, clash);
    }
}
