// One entry of a readings text: a reading of three lines, or a span of four. Assumes nothing of the text. `names` is the index of the names in the sheet text `s`.
#![tactic(auto)]

ghost use Rattle.std.specs.Prelude.{◌≡◌, ℕ, ◌≤◌, length};
ghost use Rattle.read_bytes.specs.Bytes.{bytes};
ghost use Rattle.read_lines.specs.Lines.{says, ranged_line};
ghost use Rattle.read_index.specs.Index.{names_in, IndexOf};
ghost use Rattle.read_reading.specs.OneEntry.{known_line, tick_line, first_key, to_line, last_tick, entry, entry_says};

use read_index::{LINKS, find};
use read_lines::{keyed, lf_at, name_line, ranged_value};
use spec_refusals::{Fault, Refusal};

// What an entry is taken apart into, with the place after it.
#[derive(Clone, Copy)]
pub struct Entry {
    pub signal: usize,
    pub value: bool,
    pub first: usize,
    pub last: usize,
    pub next: usize,
}

// What `known_line` does, the name judged first: for a line where no declared name was found up to an LF.
fn unknown_line(s: &[u8], names: &[u16], r: &[u8], at: usize) -> Result<(usize, usize), Refusal>
    requires { IndexOf s.now names.now × (at ≤ length r.now) }
    ensures { says result ≡ known_line (names_in s.now names.now) r.now at }
{
    let (name, next) = name_line(r, at, b"signal=", Fault::ReadingsLine, Fault::UnknownName)?;
    let found = find(s, names, r, name);
    if found.signal < names.len() - LINKS {
        Ok((found.signal, next))
    } else {
        Err(Refusal {
            fault: Fault::UnknownName,
            place: name,
        })
    }
}

// The line at `at` with a declared name: the signal's number, and the place after the line. What is found among the names is a name, and is not judged.
pub fn known_line(s: &[u8], names: &[u16], r: &[u8], at: usize) -> Result<(usize, usize), Refusal>
    requires { IndexOf s.now names.now × (at ≤ length r.now) }
    ensures { says result ≡ known_line (names_in s.now names.now) r.now at }
{
    if keyed(r, at, b"signal=") {
        let found = find(s, names, r, at + 7);
        if found.signal < names.len() - LINKS && lf_at(r, found.end) {
            return Ok((found.signal, found.end + 1));
        }
    }
    unknown_line(s, names, r, at)
}

// The line `to=` at `at`, of a span from the tick `first` on. Here and below the key is a constant of a small function: the compiler holds it against the
// text at once.
fn to_line(window: usize, r: &[u8], first: usize, at: usize) -> Result<(usize, usize), Refusal>
    requires { (1 ≤ window) × (at ≤ length r.now) }
    ensures { says result ≡ to_line window r.now first at }
{
    let end = window - 1;
    if !keyed(r, at, b"to=") {
        return Err(Refusal {
            fault: Fault::ReadingsLine,
            place: at,
        });
    }
    let v = at + 3;
    let (last, next) = ranged_value(r, at, v, Fault::ReadingsLine, Fault::Tick, 0, end)?;
    if first <= last {
        Ok((last, next))
    } else {
        Err(Refusal {
            fault: Fault::SpanEnd,
            place: v,
        })
    }
}

// The first line of the entry at `at`: its first tick.
fn first_line(spans: bool, window: usize, r: &[u8], at: usize) -> Result<(usize, usize), Refusal>
    requires { (1 ≤ window) × (at ≤ length r.now) }
    ensures { says result ≡ tick_line window r.now at (first_key spans) }
{
    let end = window - 1;
    if spans {
        if keyed(r, at, b"from=") {
            return ranged_value(r, at, at + 5, Fault::ReadingsLine, Fault::Tick, 0, end);
        }
    } else if keyed(r, at, b"at=") {
        return ranged_value(r, at, at + 3, Fault::ReadingsLine, Fault::Tick, 0, end);
    }
    Err(Refusal {
        fault: Fault::ReadingsLine,
        place: at,
    })
}

// The last tick of an entry from the tick `first` on: a span has a line for it at `at`.
fn last_tick(
    spans: bool,
    window: usize,
    r: &[u8],
    first: usize,
    at: usize,
) -> Result<(usize, usize), Refusal>
    requires { (1 ≤ window) × (at ≤ length r.now) }
    ensures { says result ≡ last_tick spans window r.now first at }
{
    if spans {
        to_line(window, r, first, at)
    } else {
        Ok((first, at))
    }
}

// The line `value=` at `at`: the value, 0 or 1.
fn value_line(r: &[u8], at: usize) -> Result<(usize, usize), Refusal>
    requires { at ≤ length r.now }
    ensures { says result ≡ ranged_line r.now at (bytes "value=") 11 14 0 1 }
{
    if keyed(r, at, b"value=") {
        ranged_value(r, at, at + 6, Fault::ReadingsLine, Fault::Value, 0, 1)
    } else {
        Err(Refusal {
            fault: Fault::ReadingsLine,
            place: at,
        })
    }
}

// The entry whose first line starts at `at`.
pub fn entry_at(
    spans: bool,
    s: &[u8],
    names: &[u16],
    window: usize,
    r: &[u8],
    at: usize,
) -> Result<Entry, Refusal>
    requires { IndexOf s.now names.now × (1 ≤ window) × (at ≤ length r.now) }
    ensures { entry_says result ≡ entry spans (names_in s.now names.now) window r.now at }
{
    let (first, p) = first_line(spans, window, r, at)?;
    let (last, q) = last_tick(spans, window, r, first, p)?;
    let (signal, u) = known_line(s, names, r, q)?;
    let (x, next) = value_line(r, u)?;
    let value = x == 1;
    Ok(Entry {
        signal,
        value,
        first,
        last,
        next,
    })
}
