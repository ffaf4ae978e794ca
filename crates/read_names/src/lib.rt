// Spellings in a text, which are letters and digits up to the first byte that is neither, names among them, and the number at a name's end.
// Assumes nothing of the text.
#![tactic(auto)]

ghost use Rattle.std.specs.Prelude.{◌≡◌, not, ◌+◌, ◌-◌, ◌≤◌, length, take, drop};
ghost use Rattle.read_bytes.specs.Bytes.{bytes, peek, pick, name_byte};
ghost use Rattle.read_names.specs.EndNumbers.{number_of, end_number, well_ended};
ghost use Rattle.read_names.specs.Spellings.{spelling_at, spelling_end, stem_end, is_spelled, is_reserved, name_at, Spelled, DigitsTo};

use read_bytes::bytes::{byte_at, name_byte, stands_at, starts_at};
use read_bytes::numbers::number_at;
use spec_limits::{END_NUMBER, NAME_BYTES};

// Is the byte at `at` no letter and no digit?
fn spelling_over(s: &[u8], at: usize) -> bool
    ensures { result ≡ not (name_byte (peek s.now at)) }
{
    let b = byte_at(s, at);
    !name_byte(b)
}

// Is the spelling at `at` the one that `w` spells?
pub fn is_spelled(s: &[u8], at: usize, w: &[u8]) -> bool
    requires { at ≤ length s.now }
    ensures { result ≡ is_spelled s.now at w.now }
{
    if starts_at(s, at, w) {
        let next = at + w.len();
        spelling_over(s, next)
    } else {
        false
    }
}

// The same, where the text has room for the spelling. With std's starts_with the look-up of a name is not written into the parser any more, which
// costs 20 % of reading a sheet.
pub fn spelled_inside(s: &[u8], at: usize, w: &[u8]) -> bool
    requires { at + length w.now ≤ length s.now }
    ensures { result ≡ is_spelled s.now at w.now }
{
    if stands_at(s, at, w) {
        let next = at + w.len();
        spelling_over(s, next)
    } else {
        false
    }
}

// Is the spelling at `at` the reserved word since?
pub fn is_since(s: &[u8], at: usize) -> bool
    requires { at ≤ length s.now }
    ensures { result ≡ is_spelled s.now at (bytes "since") }
{
    is_spelled(s, at, b"since")
}

// Is the spelling at `at` the reserved word until?
pub fn is_until(s: &[u8], at: usize) -> bool
    requires { at ≤ length s.now }
    ensures { result ≡ is_spelled s.now at (bytes "until") }
{
    is_spelled(s, at, b"until")
}

// Is the spelling at `at`, which ends at `e`, a reserved word? Both have five bytes.
fn is_reserved(s: &[u8], at: usize, e: usize) -> bool
    requires { Spelled s.now at e }
    ensures { result ≡ is_reserved s.now at }
{
    if e - at == 5 {
        if is_since(s, at) {
            return true;
        }
        return is_until(s, at);
    }
    false
}

// The place after the spelling at `at`. A byte below `a` is no letter, so it is a digit or ends the spelling.
pub fn spelling_end(s: &[u8], at: usize) -> usize
    ensures { result ≡ spelling_end s.now at }
{
    for i in at..s.len() {
        let b = s[i];
        if b < b'a' {
            if b < b'0' {
                return i;
            }
            if b'9' < b {
                return i;
            }
        } else {
            if b'z' < b {
                return i;
            }
        }
    }
    if at < s.len() { s.len() } else { at }
}

// Where the digits at the end of the spelling at `at`, which ends at `e`, start: after its last letter.
pub fn stem_end(s: &[u8], at: usize, e: usize) -> usize
    requires { Spelled s.now at e }
    ensures { result ≡ stem_end s.now at }
{
    for i in (at..e).rev() {
        if b'9' < s[i] {
            return i + 1;
        }
    }
    at
}

// What the digits from `at` up to `e` at a name's end say: a number, or that there is none.
pub fn end_number(s: &[u8], at: usize, e: usize) -> Option<usize>
    requires { DigitsTo s.now at e }
    ensures { result ≡ number_of (take (e - at) (drop at s.now)) }
{
    let (x, q) = number_at(s, at)?;
    if q != e {
        return None;
    }
    if x <= END_NUMBER { Some(x) } else { None }
}

// Are there no digits from `at` up to `e` at a name's end, or are they an end number? How many they are and the first of them tell.
fn ends_well(s: &[u8], at: usize, e: usize) -> bool
    requires { DigitsTo s.now at e }
    ensures { result ≡ well_ended (take (e - at) (drop at s.now)) }
{
    let many = e - at;
    if many < 2 {
        return true;
    }
    if 4 < many {
        return false;
    }
    s[at] != b'0'
}

// The place after the name from `at` up to `e`, and the number at its end, if digits there are an end number. Or no name.
fn name_to(s: &[u8], at: usize, e: usize) -> Option<(usize, Option<usize>)>
    requires { Spelled s.now at e }
    ensures { result ≡ pick (well_ended (spelling_at s.now at)) (λ _. Some (e, end_number (spelling_at s.now at))) None }
{
    let i = stem_end(s, at, e);
    if ends_well(s, i, e) {
        let n = end_number(s, i, e);
        Some((e, n))
    } else {
        None
    }
}

// A name at `at`: a letter, then letters or digits, 1 to 16 in all, no reserved word, and digits at its end are an end number.
// The place after it and the number at its end, if it has one. Or no name.
pub fn name_at(s: &[u8], at: usize) -> Option<(usize, Option<usize>)>
    requires { at ≤ length s.now }
    ensures { result ≡ name_at s.now at }
{
    let b = byte_at(s, at);
    match b {
        b'a'..=b'z' => {
            let e = spelling_end(s, at);
            if e - at <= NAME_BYTES {
                if is_reserved(s, at, e) {
                    return None;
                }
                return name_to(s, at, e);
            }
            None
        }
        _ => None,
    }
}
