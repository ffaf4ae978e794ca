// Lines of a listing and of readings: a key, a value, and LF. Assumes that the places of a line can be counted.
#![tactic(auto)]

ghost use Rattle.std.specs.Prelude.{◌≡◌};
ghost use Rattle.read_bytes.specs.Bytes.{bytes};
ghost use Rattle.read_names.specs.Spellings.{spelling_at};
ghost use Rattle.write_bytes.specs.Writes.{Counted, decimal_text};
ghost use Rattle.write_bytes.specs.Writers.{Writes};
ghost use Rattle.write_lines.specs.LineTexts.{line_text, one_if};

use read_names::spelling_end;
use write_bytes::Writer;

// The line of a key and a number.
pub fn write_number_line(w: &mut Writer, key: &[u8], n: usize)
    requires { Counted w.old.used (line_text key.now (decimal_text n)) }
    ensures { Writes (line_text key.now (decimal_text n)) w.old w.new }
{
    w.push_text(key);
    w.decimal(n);
    w.push(b'\n');
}

// The line of a key and a text.
pub fn write_text_line(w: &mut Writer, key: &[u8], text: &[u8])
    requires { Counted w.old.used (line_text key.now text.now) }
    ensures { Writes (line_text key.now text.now) w.old w.new }
{
    w.push_text(key);
    w.push_text(text);
    w.push(b'\n');
}

// The spelling at a place of the text.
pub fn write_word(w: &mut Writer, s: &[u8], at: usize)
    requires { Counted w.old.used (spelling_at s.now at) }
    ensures { Writes (spelling_at s.now at) w.old w.new }
{
    if at < s.len() {
        let e = spelling_end(s, at);
        w.push_text(&s[at..e]);
    }
}

// The line of a signal's name, which stands at a place of the text.
pub fn write_name_line(w: &mut Writer, s: &[u8], at: usize)
    requires { Counted w.old.used (line_text (bytes "signal=") (spelling_at s.now at)) }
    ensures { Writes (line_text (bytes "signal=") (spelling_at s.now at)) w.old w.new }
{
    w.push_text(b"signal=");
    write_word(w, s, at);
    w.push(b'\n');
}

// 1 for yes and 0 for no.
pub fn one_if(yes: bool) -> usize
    ensures { result ≡ one_if yes }
{
    if yes { 1 } else { 0 }
}
