// Bytes of a text: the byte at a place, what stands there, and the class of a byte. Assumes nothing of the text.
ghost use Rattle.std.specs.Prelude.{◌≡◌, ◌+◌, ◌≤◌, length, drop};
ghost use Rattle.read_bytes.specs.Bytes.{peek, class_of, name_byte, starts, four_at};

// The classes of bytes: those that tokens are made of, and all others.
#[derive(Clone, Copy)]
pub enum Class {
    Letter,
    Digit,
    Sign,
    Bracket,
    Other,
}

// The byte at a place of the text, and LF past its end.
pub fn byte_at(s: &[u8], at: usize) -> u8
    ensures { result ≡ peek s.now at }
{
    if at < s.len() { s[at] } else { b'\n' }
}

// The class of a byte.
pub fn class_of(b: u8) -> Class
    ensures { result ≡ class_of b }
{
    match b {
        b'a'..=b'z' => Class::Letter,
        b'0'..=b'9' => Class::Digit,
        b'(' | b')' | b'[' | b']' => Class::Bracket,
        b'!' | b'&' | b'|' | b'=' | b'<' | b'>' | b'@' | b'?' | b',' | b'-' => Class::Sign,
        _ => Class::Other,
    }
}

// Is the byte a letter or a digit?
pub fn name_byte(b: u8) -> bool
    ensures { result ≡ name_byte b }
{
    b.is_ascii_lowercase() || b.is_ascii_digit()
}

// The four bytes at `at` as one number. The compiler makes one load of it.
fn four_at(s: &[u8], at: usize) -> u32
    requires { at + 4 ≤ length s.now }
    ensures { result ≡ four_at s.now at }
{
    s[at] as u32
        + 256 * (s[at + 1] as u32)
        + 65536 * (s[at + 2] as u32)
        + 16777216 * (s[at + 3] as u32)
}

// Do the bytes of `w` from `from` on stand where those before them would end?
fn rest_stands(s: &[u8], at: usize, w: &[u8], from: usize) -> bool
    requires { (at + length w.now ≤ length s.now) × (from ≤ length w.now) }
    ensures { result ≡ starts s.now (at + from) (drop from w.now) }
{
    for i in from..w.len() {
        if s[at + i] != w[i] {
            return false;
        }
    }
    true
}

// Do the bytes of `w` stand at `at`, where the text has room for them? Four are compared at once. Of a key that the compiler knows, std's starts_with
// costs some four instructions more, `==` of slices five, `all` of the bytes one, and `step_by(4)` none, but that costs four more of any other word.
pub fn stands_at(s: &[u8], at: usize, w: &[u8]) -> bool
    requires { at + length w.now ≤ length s.now }
    ensures { result ≡ starts s.now at w.now }
{
    let mut i = 0;
    while i + 4 <= w.len() {
        let p = at + i;
        let b = four_at(s, p);
        let x = four_at(w, i);
        if b != x {
            return false;
        }
        i += 4;
    }
    rest_stands(s, at, w, i)
}

// The same, where `w` may reach past the end of the text.
fn starts_past(s: &[u8], at: usize, w: &[u8]) -> bool
    requires { at ≤ length s.now }
    ensures { result ≡ starts s.now at w.now }
{
    for i in 0..w.len() {
        if byte_at(s, at + i) != w[i] {
            return false;
        }
    }
    true
}

// Do the bytes of `w` stand at the place `at`?
pub fn starts_at(s: &[u8], at: usize, w: &[u8]) -> bool
    requires { at ≤ length s.now }
    ensures { result ≡ starts s.now at w.now }
{
    let end = at + w.len();
    if end <= s.len() {
        stands_at(s, at, w)
    } else {
        starts_past(s, at, w)
    }
}
