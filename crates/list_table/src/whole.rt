// The listing of a closed table, and that of a refusal, from the buffer's first place on.
ghost use Rattle.std.specs.Prelude.{◌≡◌, ℕ, ◌≤◌, length};
ghost use Rattle.read_names.specs.Spellings.{names_at};
ghost use Rattle.spec_limits.specs.Limits.{most_signals};
ghost use Rattle.spec_tilco.specs.Lists.{All};
ghost use Rattle.spec_tilco.specs.Table.{Stands, Answer};
ghost use Rattle.write_bytes.specs.Writes.{Counted, Wrote};
ghost use Rattle.write_bytes.specs.Writers.{Writes};
ghost use Rattle.list_order.specs.Order.{in_order_lem, Orderable};
ghost use Rattle.list_signals.specs.Signals.{Listable, Answers, signals_text};
ghost use Rattle.list_table.specs.Listing.{head_text, listing_text, refusal_text};

use list_order::signals_in_order;
use list_signals::write_signals;
use spec_limits::SIGNALS;
use write_bytes::Writer;
use write_lines::{one_if, write_number_line};

// The lines before those of the signals, from the buffer's first place on: the writer that goes on after them.
pub fn write_head<'a>(rows: usize, facts: usize, clash: bool, out: &'a mut [u8]) -> Writer<'a>
    ensures same { result.out.ghost_name ≡ out.entry.ghost_name }
    ensures head { Wrote (head_text rows facts clash) 0 out.old result.out.now result.used }
{
    let mut w = Writer::new(out);
    write_number_line(&mut w, b"answer=", 0);
    write_number_line(&mut w, b"rows=", rows);
    write_number_line(&mut w, b"facts=", facts);
    write_number_line(&mut w, b"clash=", one_if(clash));
    w
}

// The lines of all signals, in the order of their names. The list `order` is as long as they are many.
fn write_by_name(
    w: &mut Writer,
    s: &[u8],
    places: &[u16],
    order: &mut [u64],
    window: usize,
    n: usize,
    table: &[u64],
    clash: bool,
)
    requires { Orderable s.now places.now order.old × Listable (length places.now) window n table.now clash × ((f : ℕ → ℕ → Answer) → Counted w.old.used (signals_text window f (names_at s.now places.now) (in_order_lem (names_at s.now places.now)))) }
    ensures { (f : ℕ → ℕ → Answer) → Answers (Stands n table.now) (length places.now) window f → Writes (signals_text window f (names_at s.now places.now) (in_order_lem (names_at s.now places.now))) w.old w.new }
{
    signals_in_order(s, places, order);
    write_signals(w, s, places, order, window, n, table, clash);
}

// The listing of a table of `n` words a row and value, by the signals' names, which stand at these places of the sheet text.
pub fn write_listing(
    s: &[u8],
    places: &[u16],
    window: usize,
    n: usize,
    table: &[u64],
    rows: usize,
    facts: usize,
    clash: bool,
    out: &mut [u8],
) -> usize
    requires { Listable (length places.now) window n table.now clash × All (λ p. p ≤ length s.now) places.now × (length places.now ≤ most_signals) × ((f : ℕ → ℕ → Answer) → Counted 0 (listing_text (names_at s.now places.now) window rows facts clash f)) }
    ensures { (f : ℕ → ℕ → Answer) → Answers (Stands n table.now) (length places.now) window f → Wrote (listing_text (names_at s.now places.now) window rows facts clash f) 0 out.old out.new result }
{
    let mut w = write_head(rows, facts, clash, out);
    let mut order = [0u64; SIGNALS];
    let count = places.len();
    write_by_name(
        &mut w,
        s,
        places,
        &mut order[..count],
        window,
        n,
        table,
        clash,
    );
    w.length()
}

// The listing of a refusal: its number and its place.
pub fn write_refusal(number: usize, place: usize, out: &mut [u8]) -> usize
    ensures { Wrote (refusal_text number place) 0 out.old out.new result }
{
    let mut w = Writer::new(out);
    write_number_line(&mut w, b"answer=", number);
    write_number_line(&mut w, b"place=", place);
    w.length()
}
