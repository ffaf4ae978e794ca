// The interval of a timed part. An end is kept with 10,000 added (`END_ZERO`), so that it is never negative. Assumes nothing of the text.
#![tactic(auto)]

ghost use Rattle.std.specs.Prelude.{◌≡◌, ◌≤◌, length};
ghost use Rattle.read_bytes.specs.Numbers as number;
ghost use Rattle.read_interval.specs.Interval.{end_at, left_out, offsets_of, close_at, comma_at, interval};
ghost use Rattle.read_interval.specs.Interval as spec;

use read_bytes::bytes::byte_at;
use read_bytes::numbers::digits;
use spec_limits::{END, OFFSET_ZERO};
use spec_refusals::{Fault, Refusal};

// end_zero: the end 0 as it is kept.
const END_ZERO: usize = 10000;

// least_end
const LEAST: usize = END_ZERO - END;

// greatest_end
const GREATEST: usize = END_ZERO + END;

// over_offset
const OVER_OFFSET: usize = END_ZERO - OFFSET_ZERO;

// The value of one to four digits at `at` with the sign that stands before them, and the place after them.
fn signed(s: &[u8], at: usize, plus: bool) -> (usize, usize)
    requires { at ≤ length s.now }
    ensures { result ≡ spec.signed plus (number.digits s.now 4 at 0) }
{
    let (v, q) = digits(s, at, 4);
    if plus {
        (END_ZERO + v, q)
    } else {
        (END_ZERO - v, q)
    }
}

// An end at `at`, `0` or an optional `-` and one to four digits, the first not 0, and the place after it. Or no end.
fn end_at(s: &[u8], at: usize) -> Option<(usize, usize)>
    requires { at ≤ length s.now }
    ensures { result ≡ end_at s.now at }
{
    let b = byte_at(s, at);
    match b {
        b'0' => {
            let next = at + 1;
            Some((END_ZERO, next))
        }
        b'1'..=b'9' => Some(signed(s, at, true)),
        b'-' => {
            let next = at + 1;
            let e = byte_at(s, next);
            match e {
                b'1'..=b'9' => Some(signed(s, next, false)),
                _ => None,
            }
        }
        _ => None,
    }
}

// 1 where the bracket `b` is the round one, which leaves its end out.
fn left_out(b: u8, round: u8) -> usize
    ensures { result ≡ left_out b round }
{
    if b == round { 1 } else { 0 }
}

// Is an end from -63 to 63?
fn near(v: usize) -> bool
    ensures { result ≡ spec.near v }
{
    LEAST <= v && v <= GREATEST
}

// The offsets of the whole interval from the bracket `o` at `at` to the bracket `c`, with the ends `v` and `w`; `x` is the place after it.
fn offsets_of(
    at: usize,
    o: u8,
    v: usize,
    w: usize,
    c: u8,
    x: usize,
) -> Result<(usize, usize, usize), Refusal>
    ensures { result ≡ offsets_of at o v w c x }
{
    if near(v) {
        if near(w) {
            let lo = v + left_out(o, b'(');
            let hi = w - left_out(c, b')');
            if lo <= hi {
                return Ok((lo - OVER_OFFSET, hi - lo, x));
            }
        }
    }
    Err(Refusal {
        fault: Fault::Interval,
        place: at,
    })
}

// The closing bracket at `x`, after the ends `v` and `w`.
fn close_at(
    s: &[u8],
    at: usize,
    o: u8,
    v: usize,
    w: usize,
    x: usize,
) -> Result<(usize, usize, usize), Refusal>
    requires { x ≤ length s.now }
    ensures { result ≡ close_at s.now at o v w x }
{
    let c = byte_at(s, x);
    match c {
        b']' | b')' => {
            let next = x + 1;
            offsets_of(at, o, v, w, c, next)
        }
        _ => Err(Refusal {
            fault: Fault::Formula,
            place: x,
        }),
    }
}

// The comma at `q`, after the end `v`, and what follows it.
fn comma_at(
    s: &[u8],
    at: usize,
    o: u8,
    v: usize,
    q: usize,
) -> Result<(usize, usize, usize), Refusal>
    requires { q ≤ length s.now }
    ensures { result ≡ comma_at s.now at o v q }
{
    let b = byte_at(s, q);
    if b != b',' {
        return Err(Refusal {
            fault: Fault::Formula,
            place: q,
        });
    }
    let next = q + 1;
    let Some((w, x)) = end_at(s, next) else {
        return Err(Refusal {
            fault: Fault::Formula,
            place: next,
        });
    };
    close_at(s, at, o, v, w, x)
}

// The interval at `at`: its first whole number with 64 added, how many more follow, and the place after it.
pub fn interval_at(s: &[u8], at: usize) -> Result<(usize, usize, usize), Refusal>
    requires { at ≤ length s.now }
    ensures { result ≡ interval s.now at }
{
    let o = byte_at(s, at);
    match o {
        b'[' | b'(' => {
            let next = at + 1;
            let Some((v, q)) = end_at(s, next) else {
                return Err(Refusal {
                    fault: Fault::Formula,
                    place: next,
                });
            };
            comma_at(s, at, o, v, q)
        }
        _ => Err(Refusal {
            fault: Fault::Formula,
            place: at,
        }),
    }
}
