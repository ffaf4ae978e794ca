// The events of a dump after `#0`, one a line. Assumes nothing of the dump.
ghost use Rattle.std.specs.Prelude.{◌≡◌, ◌≤◌, length};
ghost use Rattle.spec_limits.specs.Limits.{most_signals};
ghost use Rattle.spec_dump.specs.DumpLines.{sign_line, time_line, asked, event_at};
ghost use Rattle.dump_lines.specs.EventSays.{event_says};

use read_bytes::bytes::starts_at;
use read_lines::ranged_line;
use spec_refusals::{Fault, Refusal};

// What a line says: a time, or a signal and its sign.
#[derive(Clone, Copy)]
pub enum Event {
    Time(usize),
    Sign(usize, u8),
}

// The line at `p` with a sign of a signal from `lo` on and before `hi`, and the place after it. A signal that the sign `z` is given is unsettled.
fn sign_line(d: &[u8], lo: usize, hi: usize, p: usize) -> Result<(Event, usize), Refusal>
    requires { (p ≤ length d.now) × (lo ≤ most_signals) × (hi ≤ most_signals) }
    ensures { event_says result ≡ sign_line d.now lo hi p }
{
    let other_line = Err(Refusal {
        fault: Fault::DumpLine,
        place: p,
    });
    if d.len() < p + 3 {
        return other_line;
    }
    let id = d[p + 1] as usize;
    if id < 33 + lo {
        return other_line;
    }
    if 33 + hi <= id {
        return other_line;
    }
    if d[p + 2] != b'\n' {
        return other_line;
    }
    let sign = match d[p] {
        b'0' => b'0',
        b'1' => b'1',
        b'x' => b'x',
        b'z' => b'x',
        _ => return other_line,
    };
    Ok((Event::Sign(id - 33, sign), p + 3))
}

// The line at `p` with a time after `u`, and the place after it.
fn time_line(window: usize, d: &[u8], u: usize, p: usize) -> Result<(Event, usize), Refusal>
    requires { (1 ≤ window) × (p ≤ length d.now) }
    ensures { event_says result ≡ time_line window d.now u p }
{
    let (t, q) = ranged_line(d, p, b"#", Fault::DumpLine, Fault::Tick, 0, window - 1)?;
    if u < t {
        Ok((Event::Time(t), q))
    } else {
        Err(Refusal {
            fault: Fault::DumpLine,
            place: p,
        })
    }
}

// Is a sign still asked for at `#0`?
#[tactic(auto, unfolding(spec_dump::specs::DumpLines::asked))]
pub fn sign_asked(count: usize, u: usize, k: usize) -> bool
    ensures { result ≡ asked count u k }
{
    u == 0 && k < count
}

// The event at `p`, after the time `u`, and the place after it; `k` is the first signal that may follow at it.
pub fn event_at(
    window: usize,
    count: usize,
    d: &[u8],
    u: usize,
    k: usize,
    p: usize,
) -> Result<(Event, usize), Refusal>
    requires { (1 ≤ window) × (count ≤ most_signals) × (k ≤ most_signals) × (p ≤ length d.now) }
    ensures { event_says result ≡ event_at window count d.now u k p }
{
    if sign_asked(count, u, k) {
        return sign_line(d, k, k + 1, p);
    }
    if starts_at(d, p, b"#") {
        return time_line(window, d, u, p);
    }
    sign_line(d, k, count, p)
}
