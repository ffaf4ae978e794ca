// The readings that a dump's events say, written into a lent buffer. Assumes that the names are an index of the sheet text `s`, and that their window has ticks.
#![tactic(auto)]

ghost use Rattle.std.specs.Prelude.{◌≡◌, false, suc, ◌*◌, ◌<◌, ◌≤◌, length, replicate, ltb};
ghost use Rattle.std.proofs.Math.Bool as Bool;
ghost use Rattle.spec_limits.specs.Limits.{most_signals, most_ticks};
ghost use Rattle.read_bytes.specs.Bytes.{byte};
ghost use Rattle.read_names.specs.Spellings.{names_at};
ghost use Rattle.read_names.specs.Slices.{names_of};
ghost use Rattle.read_index.specs.Index.{name_count, names_in, IndexOf};
ghost use Rattle.write_bytes.specs.Writes.{Counted};
ghost use Rattle.write_bytes.specs.Writers.{Writes};
ghost use Rattle.write_readings.specs.EntryTexts.{entries_text};
ghost use Rattle.spec_dump.specs.DumpLines.{asked, events_from};
ghost use Rattle.spec_dump.specs.DumpSigns.{reading_of};
ghost use Rattle.dump_readings.specs.HeldSigns.{tick_text, held_text, most_tick_bytes, CanHold};
ghost use Rattle.dump_readings.specs.TakenEvents.{EventsTaken};

use dump_lines::events::{Event, event_at, sign_asked};
use read_index::LINKS;
use spec_refusals::Refusal;
use write_bytes::Writer;
use write_readings::write_entry;

// The reading of a signal's sign at a tick, if it is 0 or 1.
fn write_sign(w: &mut Writer, s: &[u8], places: &[u16], signal: usize, tick: usize, sign: u8)
    requires { (signal < length places.now) × Counted w.old.used (entries_text false (names_at s.now places.now) (reading_of signal tick sign)) }
    ensures { Writes (entries_text false (names_of s places) (reading_of signal tick sign)) w.old w.new }
{
    match sign {
        b'0' => write_entry(w, false, s, places, signal, false, tick, tick),
        b'1' => write_entry(w, false, s, places, signal, true, tick, tick),
        _ => {}
    }
}

// The readings of the held signs at a tick.
fn write_tick(w: &mut Writer, s: &[u8], places: &[u16], signs: &[u8], tick: usize)
    requires { CanHold (names_at s.now places.now) signs.now × (tick < most_ticks) × (w.old.used ≤ most_tick_bytes * tick) }
    ensures { Writes (tick_text (names_of s places) signs.now tick 0) w.old w.new }
{
    for x in 0..places.len() {
        write_sign(w, s, places, x, tick, signs[x]);
    }
}

// The readings of the held signs from one tick on and before another.
fn write_held(w: &mut Writer, s: &[u8], places: &[u16], signs: &[u8], first: usize, end: usize)
    requires { CanHold (names_at s.now places.now) signs.now × (first ≤ end) × (end ≤ most_ticks) × (w.old.used ≤ most_tick_bytes * first) }
    ensures { Writes (held_text (names_of s places) signs.now first end) w.old w.new × (w.new.used ≤ most_tick_bytes * end) }
{
    for tick in first..end {
        write_tick(w, s, places, signs, tick);
    }
}

// Is there a line more: one of the dump, or a sign that is asked for at `#0`?
fn goes_on(count: usize, long: usize, u: usize, k: usize, p: usize) -> bool
    ensures { result ≡ Bool.◌||◌ (ltb p long) (asked count u k) }
{
    p < long || sign_asked(count, u, k)
}

// Takes the events from `p` on, up to the dump's end, and answers how many bytes their readings have. The readings of each time's signs are written when the next
// time is read. `signs` is lent with `x` for each signal.
pub fn take_events(
    s: &[u8],
    names: &[u16],
    window: usize,
    d: &[u8],
    p: usize,
    signs: &mut [u8],
    out: &mut [u8],
) -> Result<usize, Refusal>
    requires { IndexOf s.now names.now × (1 ≤ window) × (window ≤ most_ticks) × (p ≤ length d.now) × (signs.old ≡ replicate most_signals (byte "x")) }
    ensures { EventsTaken (events_from window (name_count names.now) d.now (suc (length d.now)) 0 0 p) (names_in s.now names.now) window out.old out.new result }
{
    let places = &names[LINKS..];
    let count = places.len();
    let mut w = Writer::new(out);
    let mut time = 0;
    let mut next = 0;
    let mut at = p;
    while goes_on(count, d.len(), time, next, at) {
        let (event, q) = event_at(window, count, d, time, next, at)?;
        at = q;
        match event {
            Event::Sign(x, sign) => {
                signs[x] = sign;
                next = x + 1;
            }
            Event::Time(t) => {
                write_held(&mut w, s, places, signs, time, t);
                time = t;
                next = 0;
            }
        }
    }
    write_held(&mut w, s, places, signs, time, window);
    Ok(w.length())
}
