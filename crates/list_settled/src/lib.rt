// One add to a lent table, and its listing. Assumes nothing.
#![tactic(auto)]

ghost use Rattle.list_settled.specs.Prints.{Begun, Lists, Prints, Written};

use list_table::whole::{write_listing, write_refusal};
use op_add::add;
use open_sheet::open_sheet;
use read_index::{INDEX, LINKS};
use spec_limits::{ROWS, TOPS};
use spec_refusals::Fault;
use table_facts::count_facts;
use table_marks::words_of;

// Adds the readings to the sheet's table, and writes the listing.
fn settle_table(
    s: &[u8],
    places: &[u16],
    window: usize,
    count: usize,
    readings: &[u8],
    table: &mut [u64],
    out: &mut [u8],
) -> usize
    requires { Begun s.now places.now window count }
    ensures { Written (Lists s.now readings.now table.old table.new) out.old out.new result }
{
    match add(s, readings, table) {
        Ok(added) => {
            let n = words_of(window);
            let facts = count_facts(table, n, places.len());
            let clash = added.clash;
            write_listing(s, places, window, n, table, count, facts, clash, out)
        }
        Err(refusal) => write_refusal(refusal.number(), refusal.place, out),
    }
}

// What settle prints for a sheet and readings, written from the buffer's first place on as far as there is room; its length is answered. The readings are
// added to the lent table's first words, as many as the sheet's table has; with fewer words it is refusal 29.
pub fn settle(s: &[u8], readings: &[u8], table: &mut [u64], out: &mut [u8]) -> usize
    ensures { Written (Prints s.now readings.now table.old table.new) out.old out.new result }
{
    let mut names = [0u16; INDEX];
    let mut rows = [8u64; ROWS];
    let mut tops = [0u16; TOPS];
    match open_sheet(s, &mut names, &mut rows, &mut tops) {
        Ok(sheet) => {
            let words = 2 * sheet.count * words_of(sheet.window);
            if table.len() < words {
                return write_refusal(Fault::ListedTable as usize, 0, out);
            }
            settle_table(
                s,
                &names[LINKS..LINKS + sheet.signals],
                sheet.window,
                sheet.count,
                readings,
                &mut table[..words],
                out,
            )
        }
        Err(r) => write_refusal(r.number(), r.place, out),
    }
}
