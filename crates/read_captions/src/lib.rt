// Captions by house: the lines of a captions text read, and the part of one of the two texts that is shown of a signal.
// Assumes nothing of the captions' text `c`. `names` is the index of the names in the sheet text `s`.
#![tactic(auto)]

ghost use Rattle.std.specs.Prelude.{◌≡◌, [], ◌<◌, ◌≤◌, length, get_or};
ghost use Rattle.read_lines.specs.Lines.{says};
ghost use Rattle.read_bytes.specs.Bytes.{run_end};
ghost use Rattle.read_index.specs.Index.{name_count, names_in, IndexOf};
ghost use Rattle.read_captions.specs.Captions.{before_equals, caption_end, caption_form, no_captions, LineTaken, CaptionsNoted};
ghost use Rattle.read_captions.specs.Parts.{shown_part, shown_texts, CaptionWithin, Showable, Inside, Shows};

use read_index::find;
use read_lines::lf_at;
use read_names::spelling_end;
use spec_limits::CAPTION_BYTES;
use spec_refusals::{Fault, Refusal};

// A part of the sheet or of the captions: where it starts, and its length.
#[derive(Clone, Copy)]
pub enum Part {
    InSheet(usize, usize),
    InCaptions(usize, usize),
}

// The place of the first `=` or LF from `at` on, or the text's length.
fn name_end(c: &[u8], at: usize) -> usize
    ensures { result ≡ run_end before_equals c.now at }
{
    for i in at..c.len() {
        if c[i] == b'=' || c[i] == b'\n' {
            return i;
        }
    }
    if at < c.len() { c.len() } else { at }
}

// The place after the caption at `at`.
fn caption_end(c: &[u8], at: usize) -> usize
    ensures { result ≡ caption_end c.now at }
{
    for i in at..c.len() {
        if c[i] < b' ' || b'~' < c[i] {
            return i;
        }
    }
    if at < c.len() { c.len() } else { at }
}

// The line at `p` in its form: the place of its caption, and that of its LF.
fn caption_form(c: &[u8], p: usize) -> Result<(usize, usize), Refusal>
    requires { p ≤ length c.now }
    ensures { says result ≡ caption_form c.now p }
{
    let no_form = Refusal {
        fault: Fault::CaptionLine,
        place: p,
    };
    let a = name_end(c, p);
    if c.len() <= a {
        return Err(no_form);
    }
    if c[a] != b'=' {
        return Err(no_form);
    }
    let v = a + 1;
    let e = caption_end(c, v);
    if e == v {
        return Err(no_form);
    }
    if v + CAPTION_BYTES < e {
        return Err(no_form);
    }
    if lf_at(c, e) {
        Ok((v, e))
    } else {
        Err(no_form)
    }
}

// Takes the line at `p`: notes the place of its caption at its signal's number. What is found among the names is a name, and is not judged.
// The signal's number, and the place after the line.
fn take_line(
    s: &[u8],
    names: &[u16],
    c: &[u8],
    p: usize,
    captions: &mut [Option<usize>],
) -> Result<(usize, usize), Refusal>
    requires { IndexOf s.now names.now × (p ≤ length c.now) × (length captions.old ≡ name_count names.now) }
    ensures { LineTaken (names_in s.now names.now) c.now p captions.old captions.new result }
{
    let (v, e) = caption_form(c, p)?;
    let unknown = Refusal {
        fault: Fault::UnknownName,
        place: p,
    };
    let next = e + 1;
    let f = find(s, names, c, p);
    let x = f.signal;
    if f.end + 1 != v {
        return Err(unknown);
    }
    if captions.len() <= x {
        return Err(unknown);
    }
    if captions[x].is_some() {
        return Err(Refusal {
            fault: Fault::CaptionLine,
            place: p,
        });
    }
    captions[x] = Some(v);
    Ok((x, next))
}

// Takes all lines. No signal has a caption in the list before.
pub fn note_captions(
    s: &[u8],
    names: &[u16],
    c: &[u8],
    captions: &mut [Option<usize>],
) -> Result<(), Refusal>
    requires { IndexOf s.now names.now × (captions.old ≡ no_captions (name_count names.now)) }
    ensures { CaptionsNoted (names_in s.now names.now) c.now captions.new result }
{
    let mut p = 0;
    while p < c.len() {
        let (_, next) = take_line(s, names, c, p, captions)?;
        p = next;
    }
    Ok(())
}

// The part that is shown of the name at `name`: its caption, which stands at `caption`, or the name where it has none.
pub fn shown_part(s: &[u8], c: &[u8], name: usize, caption: Option<usize>) -> Part
    requires { (name ≤ length s.now) × CaptionWithin c.now caption }
    ensures { result ≡ shown_part s.now c.now name caption }
{
    match caption {
        Some(v) => {
            let e = caption_end(c, v);
            Part::InCaptions(v, e - v)
        }
        None => {
            let e = spelling_end(s, name);
            Part::InSheet(name, e - name)
        }
    }
}

// The part itself, of whichever text it is in.
pub fn part_of<'a>(s: &'a [u8], c: &'a [u8], part: Part) -> &'a [u8]
    requires { Inside s.now c.now part }
    ensures { Shows s.entry c.entry result part }
{
    match part {
        Part::InSheet(a, n) => &s[a..a + n],
        Part::InCaptions(a, n) => &c[a..a + n],
    }
}

// What is shown of signal `x`, whose name stands at its place.
pub fn shown_text<'a>(
    s: &'a [u8],
    c: &'a [u8],
    places: &[u16],
    captions: &[Option<usize>],
    x: usize,
) -> &'a [u8]
    requires { Showable s.now c.now places.now captions.now × (x < length places.now) }
    ensures { result.now ≡ get_or (shown_texts s.now c.now places.now captions.now) x [] }
{
    let name = places[x] as usize;
    let caption = captions[x];
    let part = shown_part(s, c, name, caption);
    part_of(s, c, part)
}
