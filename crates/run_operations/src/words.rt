// The words of a table, printed. Assumes nothing of them.
use run_cases::print_number;
use std::io;
use std::io::Write;

// Prints each word that is not 0.
pub fn print_words<W: Write>(output: &mut W, words: &[u64]) -> io::Result<()> {
    for (i, &w) in words.iter().enumerate() {
        if w != 0 {
            print_number(output, b"--- word ", i as u64, b" ")?;
            print_number(output, b"", w, b"\n")?;
        }
    }
    Ok(())
}
