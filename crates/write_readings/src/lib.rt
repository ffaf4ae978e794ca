// The lines of readings and of spans, written through a writer, and how long they are. Assumes that the places of an entry can be counted. The names
// stand at `places` of the sheet text `s`.
#![tactic(auto)]

ghost use Rattle.std.specs.Prelude.{◌≡◌, [], ◌<◌, ◌≤◌, length, get_or};
ghost use Rattle.spec_limits.specs.Limits.{most_name_bytes};
ghost use Rattle.read_names.specs.Spellings.{names_at};
ghost use Rattle.read_reading.specs.Spans.{span};
ghost use Rattle.write_bytes.specs.Writes.{Counted};
ghost use Rattle.write_bytes.specs.Writers.{Writes};
ghost use Rattle.write_readings.specs.EntryTexts.{value_text, entry_text, EntryLong};

use read_names::spelling_end;
use write_bytes::{Writer, digits_of};
use write_lines::{write_name_line, write_number_line};

// An entry's last two lines, whatever its ticks are: its signal's name, and its value. The second is one of two texts: as a number it costs a call more.
fn write_value(w: &mut Writer, s: &[u8], places: &[u16], signal: usize, value: bool)
    requires { (signal < length places.now) × Counted w.old.used (value_text (names_at s.now places.now) (span signal value 0 0)) }
    ensures { Writes (value_text (names_at s.now places.now) (span signal value 0 0)) w.old w.new }
{
    let name = places[signal] as usize;
    write_name_line(w, s, name);
    let line = if value { b"value=1\n" } else { b"value=0\n" };
    w.push_text(line);
}

// The lines of an entry: those of a span, or of a reading, whose tick is `first`.
pub fn write_entry(
    w: &mut Writer,
    spans: bool,
    s: &[u8],
    places: &[u16],
    signal: usize,
    value: bool,
    first: usize,
    last: usize,
)
    requires { (signal < length places.now) × Counted w.old.used (entry_text spans (names_at s.now places.now) (span signal value first last)) }
    ensures { Writes (entry_text spans (names_at s.now places.now) (span signal value first last)) w.old w.new }
{
    if spans {
        write_number_line(w, b"from=", first);
        write_number_line(w, b"to=", last);
    } else {
        write_number_line(w, b"at=", first);
    }
    write_value(w, s, places, signal, value);
}

// How many bytes a signal's name has.
pub fn name_length(s: &[u8], places: &[u16], signal: usize) -> usize
    requires { signal < length places.now }
    ensures { result ≡ length (get_or (names_at s.now places.now) signal []) }
{
    let name = places[signal] as usize;
    spelling_end(s, name) - name
}

// How many bytes `write_entry` writes of an entry whose name has `name` bytes, whatever its value is.
pub fn entry_length(spans: bool, name: usize, first: usize, last: usize) -> usize
    requires { (name ≤ most_name_bytes) × (first < 10000) × (last < 10000) }
    ensures { (result ≤ 50) × EntryLong spans name first last result }
{
    if spans {
        digits_of(first) + digits_of(last) + name + 26
    } else {
        digits_of(first) + name + 20
    }
}
