// One add to a lent table, and its listing, with captions or without. Assumes nothing.
#![tactic(auto)]

pub mod signals;
pub mod whole;

ghost use Rattle.std.specs.Prelude.{◌≡◌};
ghost use Rattle.read_index.specs.Index.{places_in, name_count, IndexOf};
ghost use Rattle.read_captions.specs.Captions.{no_captions};
ghost use Rattle.read_captions.specs.Parts.{shown_texts};
ghost use Rattle.list_settled.specs.Prints.{Begun};
ghost use Rattle.list_captioned.specs.PrintsCaptioned.{WrittenCaptioned, Captioned, ListsShown, PrintsCaptioned};

use crate::whole::write_shown_listing;
use list_table::whole::write_refusal;
use op_add::add;
use open_sheet::open_sheet;
use read_captions::note_captions;
use read_index::{INDEX, LINKS};
use spec_limits::{ROWS, SIGNALS, TOPS};
use spec_refusals::Fault;
use table_facts::count_facts;
use table_marks::words_of;

// Adds the readings to the sheet's table, and writes the listing.
fn settle_table<'a>(
    s: &'a [u8],
    places: &[u16],
    c: &'a [u8],
    captions: &[Option<usize>],
    window: usize,
    count: usize,
    readings: &[u8],
    table: &mut [u64],
    out: &mut [u8],
) -> usize
    requires { Begun s.now places.now window count × Captioned s.now c.now places.now captions.now }
    ensures { WrittenCaptioned (ListsShown (shown_texts s.now c.now places.now captions.now) s.now readings.now table.old table.new) out.old out.new result }
{
    match add(s, readings, table) {
        Ok(added) => {
            let n = words_of(window);
            let facts = count_facts(table, n, places.len());
            let clash = added.clash;
            write_shown_listing(
                s, places, c, captions, window, n, table, count, facts, clash, out,
            )
        }
        Err(refusal) => write_refusal(refusal.number(), refusal.place, out),
    }
}

// The same for a sheet that was opened, whose names are in the index: the captions are read first, then 29. No signal has a caption in the list before.
fn settle_opened<'a>(
    s: &'a [u8],
    names: &[u16],
    c: &'a [u8],
    captions: &mut [Option<usize>],
    window: usize,
    count: usize,
    readings: &[u8],
    table: &mut [u64],
    out: &mut [u8],
) -> usize
    requires { IndexOf s.now names.now × Begun s.now (places_in names.now) window count × (captions.old ≡ no_captions (name_count names.now)) }
    ensures { WrittenCaptioned (PrintsCaptioned s.now readings.now c.now table.old table.new) out.old out.new result }
{
    match note_captions(s, names, c, captions) {
        Ok(()) => {
            let words = 2 * count * words_of(window);
            if table.len() < words {
                return write_refusal(Fault::ListedTable as usize, 0, out);
            }
            settle_table(
                s,
                &names[LINKS..],
                c,
                captions,
                window,
                count,
                readings,
                &mut table[..words],
                out,
            )
        }
        Err(refusal) => write_refusal(refusal.number(), refusal.place, out),
    }
}

// What the listing with captions is for a sheet, readings and captions, written from the buffer's first place on as far as there is room; its length is
// answered. The readings are added to the lent table's first words, as many as the sheet's table has; with fewer words it is refusal 29.
pub fn settle_captioned<'a>(
    s: &'a [u8],
    readings: &[u8],
    c: &'a [u8],
    table: &mut [u64],
    out: &mut [u8],
) -> usize
    ensures { WrittenCaptioned (PrintsCaptioned s.now readings.now c.now table.old table.new) out.old out.new result }
{
    let mut names = [0u16; INDEX];
    let mut rows = [8u64; ROWS];
    let mut tops = [0u16; TOPS];
    match open_sheet(s, &mut names, &mut rows, &mut tops) {
        Ok(sheet) => {
            let signals = sheet.signals;
            let mut captions: [Option<usize>; SIGNALS] = [None; SIGNALS];
            settle_opened(
                s,
                &names[..LINKS + signals],
                c,
                &mut captions[..signals],
                sheet.window,
                sheet.count,
                readings,
                table,
                out,
            )
        }
        Err(refusal) => write_refusal(refusal.number(), refusal.place, out),
    }
}
