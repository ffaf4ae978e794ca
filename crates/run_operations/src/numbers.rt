// Numbers and words of a heading or a line of the cases. Assumes nothing of the cases.
use read_bytes::bytes::byte_at;
use read_names::spelling_end;

// The number with one more decimal digit, as long as it stays below 2^64; a byte that is no digit changes nothing.
fn with_digit(v: u64, b: u8) -> u64 {
    match b {
        b'0'..=b'9' => {
            if v <= 1844674407370955161 {
                std::num::wrapping_add_u64(10 * v, b as u64 - 48)
            } else {
                v
            }
        }
        _ => v,
    }
}

// The number that the word at `at` spells in decimal digits.
pub fn decimal_at(cases: &[u8], at: usize) -> u64 {
    let end = spelling_end(cases, at);
    let mut v = 0;
    for p in at..end {
        v = with_digit(v, byte_at(cases, p));
    }
    v
}

// The place of the word after the one at `at`.
pub fn next_word(cases: &[u8], at: usize) -> usize {
    let e = spelling_end(cases, at);
    if e < cases.len() { e + 1 } else { e }
}

// The place of the word after the one at `at` and its `-`, or its `*` and a number, if it has one.
pub fn word_after(cases: &[u8], at: usize) -> usize {
    let option = spelling_end(cases, at);
    let second = next_word(cases, at);
    if byte_at(cases, option) == b' ' {
        second
    } else {
        next_word(cases, second)
    }
}
