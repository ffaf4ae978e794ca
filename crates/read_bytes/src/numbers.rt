// Numbers of a text. Assumes nothing of the text.
ghost use Rattle.std.specs.Prelude.{◌≡◌, ◌≤◌, length};
ghost use Rattle.read_bytes.specs.Numbers.{number};
ghost use Rattle.read_bytes.specs.Numbers as spec;

use crate::bytes::byte_at;

// The value of the digits at `at`, of which `most` are read at the most, and the place after them.
pub fn digits(s: &[u8], at: usize, most: usize) -> (usize, usize)
    requires { (at ≤ length s.now) × (most ≤ 5) }
    ensures { result ≡ spec.digits s.now most at 0 }
{
    let mut p = at;
    let mut v: usize = 0;
    for read in 0..most {
        let b = byte_at(s, p);
        match b {
            b'0'..=b'9' => {
                v = 10 * v + (b as usize - 48);
                p += 1;
            }
            _ => return (v, p),
        }
    }
    (v, p)
}

// A number at `at`, one to five digits with no leading zero, and the place after it. Or no number.
pub fn number_at(s: &[u8], at: usize) -> Option<(usize, usize)>
    requires { at ≤ length s.now }
    ensures { result ≡ number s.now at }
{
    let b = byte_at(s, at);
    match b {
        b'0' => {
            let next = at + 1;
            Some((0, next))
        }
        b'1'..=b'9' => Some(digits(s, at, 5)),
        _ => None,
    }
}
