// The words of a look's row and of its child: moved against each other as far as they stay in the window, and joined. Assumes nothing of the table.
#![tactic(auto)]

ghost use Rattle.std.specs.Prelude.{◌≡◌, ◌*◌, ◌<◌};
ghost use Rattle.std.specs.Int.Bits.{bit_or};
ghost use Rattle.table_words.specs.WordTicks.{Ticks};
ghost use Rattle.close_shift.specs.ShiftedWords.{shifted_word};

use table_words::{Words, window_word};

// The window's ticks in word p; `here` are those in word q, which in a short window is the same.
pub fn window_beside(window: usize, p: usize, q: usize, here: u64) -> u64
    requires { (p * 64 < window) × Ticks q here (λ t. t < window) }
    ensures { Ticks p result (λ t. t < window) }
{
    if p == q {
        return here;
    }
    window_word(window, p)
}

// Both words moved by k ticks, up or else down, as far as they stay among the ticks of `within`.
pub fn shift(w: Words, k: u64, up: bool, within: u64) -> Words
    requires { k < 64 }
    ensures { (result.this ≡ shifted_word up within k w.this) × (result.other ≡ shifted_word up within k w.other) }
{
    if up {
        let this = within & (w.this << k);
        let other = within & (w.other << k);
        return Words { this, other };
    }
    let this = within & (w.this >> k);
    let other = within & (w.other >> k);
    Words { this, other }
}

// The ticks of both pairs of words.
pub fn join(v: Words, w: Words) -> Words
    ensures { (result.this ≡ bit_or v.this w.this) × (result.other ≡ bit_or v.other w.other) }
{
    let this = v.this | w.this;
    let other = v.other | w.other;
    Words { this, other }
}
