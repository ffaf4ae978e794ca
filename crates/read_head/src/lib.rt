// What stands before the rules: the window, the signals' names, and how many rules there are. Assumes nothing of the text but its length.
// `names` is the index of the names in the sheet text `s`.
#![tactic(auto)]

ghost use Rattle.std.specs.Prelude.{◌≡◌, [], ℕ, ◌<◌, ◌≤◌, length};
ghost use Rattle.spec_limits.specs.Limits.{most_bytes, most_signals};
ghost use Rattle.read_lines.specs.Lines.{says, ranged_line, in_turn};
ghost use Rattle.read_head.specs.SheetHead.{signal_line, NamesPut, SignalRead, SignalsRead, NoNames, Headed};

use read_index::{LINKS, find, put_name};
use read_lines::{name_line, ranged_line};
use spec_limits::{RULES, SIGNALS, TICKS};
use spec_refusals::{Fault, Refusal};

// What the head says, with the place of the first rule's line.
#[derive(Clone, Copy)]
pub struct HeadLines {
    pub window: usize,
    pub signals: usize,
    pub rules: usize,
    pub first: usize,
}

// The line at `at` with the name of a signal, after the first `count` names: the name is put into the index. Its place, and the place after the line.
fn signal_line(
    s: &[u8],
    names: &mut [u16],
    count: usize,
    at: usize,
) -> Result<(usize, usize), Refusal>
    requires { NamesPut s.now names.old count × (count < most_signals) × (at ≤ length s.now) × (length s.now ≤ most_bytes) }
    ensures { SignalRead s.now names.old names.new count at result }
{
    let (v, next) = name_line(s, at, b"signal=", Fault::SheetLine, Fault::SignalName)?;
    let end = LINKS + count;
    let f = find(s, &names[..end], s, v);
    if f.signal == count {
        put_name(names, count, v, f.slot);
        Ok((v, next))
    } else {
        Err(Refusal {
            fault: Fault::SignalName,
            place: v,
        })
    }
}

// The lines of `n` signals from `at` on: each name is put into the index, and the place after the lines is given.
fn signals_at(s: &[u8], names: &mut [u16], n: usize, at: usize) -> Result<usize, Refusal>
    requires { NamesPut s.now names.old 0 × (n ≤ most_signals) × (at ≤ length s.now) × (length s.now ≤ most_bytes) }
    ensures { SignalsRead s.now names.new n (in_turn (signal_line s.now) n [] at) result }
{
    let mut p = at;
    for i in 0..n {
        let (_, next) = signal_line(s, names, i, p)?;
        p = next;
    }
    Ok(p)
}

// The line at `at` with the key `key` and a number from `lo` to `hi`.
fn number_line(
    s: &[u8],
    at: usize,
    key: &[u8],
    lo: usize,
    hi: usize,
) -> Result<(usize, usize), Refusal>
    requires { at ≤ length s.now }
    ensures { says result ≡ ranged_line s.now at key.now 2 3 lo hi }
{
    ranged_line(s, at, key, Fault::SheetLine, Fault::SheetNumber, lo, hi)
}

// The head of the sheet: the index gets each signal's name.
pub fn head(s: &[u8], names: &mut [u16]) -> Result<HeadLines, Refusal>
    requires { NoNames names.old × (length s.now ≤ most_bytes) }
    ensures { Headed s.now names.new result }
{
    let (window, p) = number_line(s, 0, b"window=", 1, TICKS)?;
    let (signals, q) = number_line(s, p, b"signals=", 1, SIGNALS)?;
    let u = signals_at(s, names, signals, q)?;
    let (rules, first) = number_line(s, u, b"rules=", 0, RULES)?;
    Ok(HeadLines {
        window,
        signals,
        rules,
        first,
    })
}
