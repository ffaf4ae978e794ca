// Lines of a text: a key, a value, and LF. Assumes nothing of the text.
// `form` is the fault of a line that is not of its form, at the line, and `content` that of a value that is wrong, at the value. What is read comes with the place after it.
// The caller tells a fault as it likes, by its kind or by a number.
#![tactic(auto)]

ghost use Rattle.std.specs.Prelude.{◌≡◌, ◌+◌, ◌≤◌, length};
ghost use Rattle.read_lines.specs.Lines.{says_by, line_end, keyed_at, lf_at, NoName, line, number_value, ranged_value, ranged_line, name_line};

use read_bytes::bytes::stands_at;
use read_bytes::numbers::number_at;
use read_names::name_at;
use spec_refusals::{Numbered, Refusal};

// The place of the first LF from `at` on, or the text's length. The bytes are looked at one by one.
fn rest_end(s: &[u8], at: usize) -> usize
    ensures { result ≡ line_end s.now at }
{
    for i in at..s.len() {
        if s[i] == b'\n' {
            return i;
        }
    }
    if at < s.len() { s.len() } else { at }
}

// The same, four bytes a turn while four are left. Where none of these is LF, the three at most after them are looked at one by one.
// std's `position` looks at a byte a turn, and costs half as many instructions again.
pub fn line_end(s: &[u8], at: usize) -> usize
    ensures { result ≡ line_end s.now at }
{
    if s.len() < 4 {
        return rest_end(s, at);
    }
    let last = s.len() - 3;
    let mut rest = at;
    for i in (at..last).step_by(4) {
        if s[i] == b'\n' {
            return i;
        }
        if s[i + 1] == b'\n' {
            return i + 1;
        }
        if s[i + 2] == b'\n' {
            return i + 2;
        }
        if s[i + 3] == b'\n' {
            return i + 3;
        }
        rest = i + 4;
    }
    rest_end(s, rest)
}

// Does the key stand at `at`, and the text reach to the place of its value?
pub fn keyed(s: &[u8], at: usize, key: &[u8]) -> bool
    requires { at ≤ length s.now }
    ensures { result ≡ keyed_at s.now at key.now }
{
    let v = at + key.len();
    if v <= s.len() {
        stands_at(s, at, key)
    } else {
        false
    }
}

// Does an LF of the text stand at `at`?
pub fn lf_at(s: &[u8], at: usize) -> bool
    ensures { result ≡ lf_at s.now at }
{
    if at < s.len() { s[at] == b'\n' } else { false }
}

// The line at `at` with the key `key`: the place of its value, and that of its LF.
pub fn line_at<F: Numbered>(
    s: &[u8],
    at: usize,
    key: &[u8],
    form: F,
) -> Result<(usize, usize), Refusal<F>>
    requires { at ≤ length s.now }
    ensures { says_by F.number result ≡ line s.now at key.now (F.number form) }
{
    if keyed(s, at, key) {
        let v = at + key.len();
        let e = line_end(s, v);
        if e < s.len() {
            return Ok((v, e));
        }
    }
    Err(Refusal {
        fault: form,
        place: at,
    })
}

// The number at `v` and the LF after it, of the line at `at`: the number, and the place after the line.
fn number_value<F: Numbered>(
    s: &[u8],
    at: usize,
    v: usize,
    form: F,
) -> Result<(usize, usize), Refusal<F>>
    requires { v ≤ length s.now }
    ensures { says_by F.number result ≡ number_value s.now at v (F.number form) }
{
    let Some((x, q)) = number_at(s, v) else {
        return Err(Refusal {
            fault: form,
            place: at,
        });
    };
    if lf_at(s, q) {
        let next = q + 1;
        Ok((x, next))
    } else {
        Err(Refusal {
            fault: form,
            place: at,
        })
    }
}

// The same, with a number from `lo` to `hi`.
pub fn ranged_value<F: Numbered>(
    s: &[u8],
    at: usize,
    v: usize,
    form: F,
    content: F,
    lo: usize,
    hi: usize,
) -> Result<(usize, usize), Refusal<F>>
    requires { v ≤ length s.now }
    ensures { says_by F.number result ≡ ranged_value s.now at v (F.number form) (F.number content) lo hi }
{
    let (x, q) = number_value(s, at, v, form)?;
    if x < lo {
        return Err(Refusal {
            fault: content,
            place: v,
        });
    }
    if hi < x {
        return Err(Refusal {
            fault: content,
            place: v,
        });
    }
    Ok((x, q))
}

// The line at `at` with the key `key` and such a number.
pub fn ranged_line<F: Numbered>(
    s: &[u8],
    at: usize,
    key: &[u8],
    form: F,
    content: F,
    lo: usize,
    hi: usize,
) -> Result<(usize, usize), Refusal<F>>
    requires { at ≤ length s.now }
    ensures { says_by F.number result ≡ ranged_line s.now at key.now (F.number form) (F.number content) lo hi }
{
    if keyed(s, at, key) {
        let v = at + key.len();
        ranged_value(s, at, v, form, content, lo, hi)
    } else {
        Err(Refusal {
            fault: form,
            place: at,
        })
    }
}

// The refusal of a line whose value is no name that takes it whole: for its form, where the key or the LF is missing, or for its content.
fn no_name<F: Numbered>(
    s: &[u8],
    at: usize,
    key: &[u8],
    form: F,
    content: F,
) -> Result<(usize, usize), Refusal<F>>
    requires { (at ≤ length s.now) × NoName s.now (at + length key.now) }
    ensures { says_by F.number result ≡ name_line s.now at key.now (F.number form) (F.number content) }
{
    let (v, _) = line_at(s, at, key, form)?;
    Err(Refusal {
        fault: content,
        place: v,
    })
}

// The line at `at` with the key `key` and a name: the place of the name, and the place after the line.
pub fn name_line<F: Numbered>(
    s: &[u8],
    at: usize,
    key: &[u8],
    form: F,
    content: F,
) -> Result<(usize, usize), Refusal<F>>
    requires { at ≤ length s.now }
    ensures { says_by F.number result ≡ name_line s.now at key.now (F.number form) (F.number content) }
{
    if !keyed(s, at, key) {
        return Err(Refusal {
            fault: form,
            place: at,
        });
    }
    let v = at + key.len();
    let Some((q, _)) = name_at(s, v) else {
        return no_name(s, at, key, form, content);
    };
    if lf_at(s, q) {
        let next = q + 1;
        Ok((v, next))
    } else {
        no_name(s, at, key, form, content)
    }
}

#[cfg(test)]
mod tests {
    use crate::{Refusal, name_line, ranged_line};

    // A line with a number from `lo` to `hi`, where any two numbers tell the refusals.
    fn by_numbers(
        s: &[u8],
        at: usize,
        key: &[u8],
        form: usize,
        content: usize,
        lo: usize,
        hi: usize,
    ) -> Result<(usize, usize), Refusal<usize>>
        requires { at ≤ length s.now }
        ensures { says_by (λ n. n) result ≡ ranged_line s.now at key.now form content lo hi }
    {
        ranged_line(s, at, key, form, content, lo, hi)
    }

    // A line of the sheet's head, read and refused by numbers that no kind of fault has.
    #[test]
    fn refused_by_any_number(rt: HostRuntime) {
        let s: &[u8] = b"window=40\n";
        let key: &[u8] = b"window=";
        let form = Refusal {
            fault: 1000,
            place: 0,
        };
        let content = Refusal {
            fault: 2000,
            place: 7,
        };
        assert!(rt; by_numbers(s, 0, key, 1000, 2000, 1, 40) == Ok((40, 10)));
        assert!(rt; by_numbers(s, 0, b"rules=", 1000, 2000, 1, 40) == Err(form));
        assert!(rt; by_numbers(s, 0, key, 1000, 2000, 1, 39) == Err(content));
        assert!(rt; name_line(s, 0, key, 1000, 2000) == Err(content));
    }
}
