// The lines of signals, by what is shown of them. What a table must have to be listed is asked as of the listing without captions.
ghost use Rattle.std.specs.Prelude.{◌≡◌, ℕ, ◌+◌, ◌<◌, length};
ghost use Rattle.read_captions.specs.Parts.{shown_texts, Showable};
ghost use Rattle.spec_tilco.specs.Lists.{All};
ghost use Rattle.spec_tilco.specs.Table.{Stands, Answer};
ghost use Rattle.write_bytes.specs.Writes.{Counted};
ghost use Rattle.write_bytes.specs.Writers.{Writes};
ghost use Rattle.list_signals.specs.Signals.{Listable, AnswersAt, Answers, signs, signal_text, signals_text};

use list_signals::write_marks_line;
use read_captions::shown_text;
use write_bytes::Writer;
use write_lines::write_text_line;

// The two lines of a signal, of which this text is shown.
fn write_shown_signal(
    w: &mut Writer,
    shown: &[u8],
    table: &[u64],
    n: usize,
    signal: usize,
    window: usize,
    clash: bool,
)
    requires { Listable (signal + 1) window n table.now clash × ((f : ℕ → Answer) → Counted w.old.used (signal_text shown.now (signs f 0 window))) }
    ensures { (f : ℕ → Answer) → AnswersAt (Stands n table.now) signal window f → Writes (signal_text shown.now (signs f 0 window)) w.old w.new }
{
    write_text_line(w, b"signal=", shown);
    write_marks_line(w, table, n, signal, window, clash);
}

// The lines of the signals with these numbers. The signals' names stand at these places of the text `s`, and captions of them in `c`.
pub fn write_shown_signals<'a>(
    w: &mut Writer,
    s: &'a [u8],
    places: &[u16],
    c: &'a [u8],
    captions: &[Option<usize>],
    signals: &[u64],
    window: usize,
    n: usize,
    table: &[u64],
    clash: bool,
)
    requires { Listable (length places.now) window n table.now clash × Showable s.now c.now places.now captions.now × All (λ x. x < length places.now) signals.now × ((f : ℕ → ℕ → Answer) → Counted w.old.used (signals_text window f (shown_texts s.now c.now places.now captions.now) signals.now)) }
    ensures { (f : ℕ → ℕ → Answer) → Answers (Stands n table.now) (length places.now) window f → Writes (signals_text window f (shown_texts s.now c.now places.now captions.now) signals.now) w.old w.new }
{
    for signal in signals {
        let x = *signal as usize;
        let shown = shown_text(s, c, places, captions, x);
        write_shown_signal(w, shown, table, n, x, window, clash);
    }
}
