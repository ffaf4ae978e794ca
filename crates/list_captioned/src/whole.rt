// The listing of a closed table with captions, from the buffer's first place on.
ghost use Rattle.std.specs.Prelude.{◌≡◌, ℕ, ◌≤◌, length};
ghost use Rattle.read_names.specs.Spellings.{names_at};
ghost use Rattle.spec_limits.specs.Limits.{most_signals};
ghost use Rattle.spec_tilco.specs.Table.{Stands, Answer};
ghost use Rattle.write_bytes.specs.Writes.{Counted, Wrote};
ghost use Rattle.write_bytes.specs.Writers.{Writes};
ghost use Rattle.read_captions.specs.Parts.{shown_texts, Showable};
ghost use Rattle.list_order.specs.Order.{in_order_lem};
ghost use Rattle.list_signals.specs.Signals.{Listable, Answers, signals_text};
ghost use Rattle.list_captioned.specs.ShownListing.{shown_listing};

use crate::signals::write_shown_signals;
use list_order::signals_in_order;
use list_table::whole::write_head;
use spec_limits::SIGNALS;
use write_bytes::Writer;

// The lines of all signals, in the order of their names. The list `order` is as long as they are many.
fn write_shown_by_name<'a>(
    w: &mut Writer,
    s: &'a [u8],
    places: &[u16],
    c: &'a [u8],
    captions: &[Option<usize>],
    order: &mut [u64],
    window: usize,
    n: usize,
    table: &[u64],
    clash: bool,
)
    requires { (length order.old ≡ length places.now) × Listable (length places.now) window n table.now clash × Showable s.now c.now places.now captions.now × ((f : ℕ → ℕ → Answer) → Counted w.old.used (signals_text window f (shown_texts s.now c.now places.now captions.now) (in_order_lem (names_at s.now places.now)))) }
    ensures { (f : ℕ → ℕ → Answer) → Answers (Stands n table.now) (length places.now) window f → Writes (signals_text window f (shown_texts s.now c.now places.now captions.now) (in_order_lem (names_at s.now places.now))) w.old w.new }
{
    signals_in_order(s, places, order);
    write_shown_signals(w, s, places, c, captions, order, window, n, table, clash);
}

// The listing of a table of `n` words a row and value, by the signals' names, which stand at these places of the sheet text. Where a signal has a caption,
// at its place of the text `c`, that is shown.
pub fn write_shown_listing<'a>(
    s: &'a [u8],
    places: &[u16],
    c: &'a [u8],
    captions: &[Option<usize>],
    window: usize,
    n: usize,
    table: &[u64],
    rows: usize,
    facts: usize,
    clash: bool,
    out: &mut [u8],
) -> usize
    requires { Listable (length places.now) window n table.now clash × Showable s.now c.now places.now captions.now × (length places.now ≤ most_signals) × ((f : ℕ → ℕ → Answer) → Counted 0 (shown_listing (names_at s.now places.now) (shown_texts s.now c.now places.now captions.now) window rows facts clash f)) }
    ensures { (f : ℕ → ℕ → Answer) → Answers (Stands n table.now) (length places.now) window f → Wrote (shown_listing (names_at s.now places.now) (shown_texts s.now c.now places.now captions.now) window rows facts clash f) 0 out.old out.new result }
{
    let mut w = write_head(rows, facts, clash, out);
    let mut order = [0u64; SIGNALS];
    let count = places.len();
    write_shown_by_name(
        &mut w,
        s,
        places,
        c,
        captions,
        &mut order[..count],
        window,
        n,
        table,
        clash,
    );
    w.length()
}
