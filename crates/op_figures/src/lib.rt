// figures: several readings texts run against one sheet, and a record for each signal. Assumes nothing.
// figure_runs does the work in plain words; the records are filled from them.
#![tactic(auto)]

ghost use Rattle.std.specs.Prelude.{◌≡◌, ◌*◌, ◌^◌, ◌<◌, ◌≤◌, length};
ghost use Rattle.figure_run.specs.RecordWords.{record_words, records_in};
ghost use Rattle.figure_runs.specs.Runs.{RecordRoom};
ghost use Rattle.op_figures.specs.Reports.{Reports};

use figure_run::records::{RECORD_WORDS, record_in};
use figure_runs::whole::figures_in_words;
use spec_figures::Record;
use spec_limits::SIGNALS;
use spec_refusals::Refusal;

// The words of the most records.
const RECORDS: usize = RECORD_WORDS * SIGNALS;

// Fills the records from their words.
fn fill(records: &mut [Record], words: &[u64])
    requires { (record_words * length records.old ≤ length words.now) × (record_words * length records.old < 2 ^ 64) }
    ensures { records.new ≡ records_in words.now (length records.old) }
{
    for (i, r) in records.iter_mut().enumerate() {
        *r = record_in(words, i);
    }
}

// figures, with words for the most records.
fn figures_through(
    s: &[u8],
    texts: &[u8],
    lengths: &[u64],
    work: &mut [u64],
    records: &mut [Record],
    words: &mut [u64],
) -> Result<(), Refusal>
    requires { RecordRoom words.old }
    ensures { Reports s.now texts.now lengths.now work.old work.new records.old records.new result }
{
    figures_in_words(s, texts, lengths, records.len(), work, words)?;
    fill(records, words);
    Ok(())
}

// Runs the texts, joined in one slice, against the sheet, and fills a record for each signal. At a refusal the work table and the records keep every word.
pub fn figures(
    s: &[u8],
    texts: &[u8],
    lengths: &[u64],
    work: &mut [u64],
    records: &mut [Record],
) -> Result<(), Refusal>
    ensures { Reports s.now texts.now lengths.now work.old work.new records.old records.new result }
{
    let mut words = [1u64; RECORDS];
    figures_through(s, texts, lengths, work, records, &mut words)
}
