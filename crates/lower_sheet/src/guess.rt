// How many hidden signals a sheet seems to have. The rows of the formulas start after the hidden signals', so their number is wanted before
// the rules are read. Assumes nothing of the text.
ghost use Rattle.std.specs.Prelude.{◌≤◌, length};
ghost use Rattle.spec_limits.specs.Limits.{most_hidden};

use read_bytes::bytes::name_byte;
use spec_limits::HIDDEN;

// How many `(` stand right after a letter or a digit, after the byte at `first`, up to HIDDEN. In an accepted rule these are those of since and until,
// but nothing rests on it: where the guess is wrong, the rules are read again.
pub fn guess_hidden(s: &[u8], first: usize) -> usize
    requires { first ≤ length s.now }
    ensures { result ≤ most_hidden }
{
    let mut n = 0;
    for i in first + 1..s.len() {
        if s[i] == b'(' && name_byte(s[i - 1]) && n < HIDDEN {
            n += 1;
        }
    }
    n
}
