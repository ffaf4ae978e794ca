// The figures in plain words: the sheet is opened, and what is lent is compared with it. Assumes room for the most records.
ghost use Rattle.figure_runs.specs.Runs.{OpenedFor, RecordRoom};
ghost use Rattle.figure_runs.specs.FigureWords.{FiguresInWords};

use crate::opened::run_opened;
use crate::runs::Sizes;
use figure_texts::lengths_fit;
use open_sheet::open_sheet;
use read_index::{INDEX, LINKS};
use spec_limits::{ROWS, TOPS};
use spec_refusals::{Fault, Refusal};
use table_marks::words_of;

// The figures of an opened sheet: 15 for the table, 18 for the records, 19 for the lengths, then the texts.
fn compare_and_run(
    s: &[u8],
    names: &[u16],
    rows: &[u64],
    tops: &[u16],
    z: Sizes,
    texts: &[u8],
    lengths: &[u64],
    m: usize,
    table: &mut [u64],
    words: &mut [u64],
) -> Result<(), Refusal>
    requires { OpenedFor s.now names.now rows.now tops.now z × RecordRoom words.old }
    ensures { FiguresInWords s.now texts.now lengths.now table.old table.new m words.new result }
{
    if table.len() != 2 * z.count * z.n {
        return Err(Refusal {
            fault: Fault::TableLength,
            place: 0,
        });
    }
    if m != names.len() - LINKS {
        return Err(Refusal {
            fault: Fault::Records,
            place: 0,
        });
    }
    if !lengths_fit(lengths, texts.len()) {
        return Err(Refusal {
            fault: Fault::TextLengths,
            place: 0,
        });
    }
    run_opened(s, names, rows, tops, z, texts, lengths, table, words)
}

// The figures of m signals, six words each, in the listing's order.
pub fn figures_in_words(
    s: &[u8],
    texts: &[u8],
    lengths: &[u64],
    m: usize,
    table: &mut [u64],
    words: &mut [u64],
) -> Result<(), Refusal>
    requires { RecordRoom words.old }
    ensures { FiguresInWords s.now texts.now lengths.now table.old table.new m words.new result }
{
    let mut names = [0u16; INDEX];
    let mut rows = [8u64; ROWS];
    let mut tops = [0u16; TOPS];
    let sheet = open_sheet(s, &mut names, &mut rows, &mut tops)?;
    let n = words_of(sheet.window);
    let z = Sizes {
        window: sheet.window,
        n,
        count: sheet.count,
        tops: sheet.tops,
    };
    compare_and_run(
        s,
        &names[..LINKS + sheet.signals],
        &rows,
        &tops,
        z,
        texts,
        lengths,
        m,
        table,
        words,
    )
}
