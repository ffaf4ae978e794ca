// The moves between readings and spans, into a lent buffer, and the text that stands there then. Assumes nothing.
use crate::answers::Answer;
use op_moves::moves::{to_readings, to_spans};
use run_cases::print;
use spec_refusals::Refusal;
use std::io;
use std::io::Write;

// Writes the readings as spans.
pub fn spans(s: &[u8], readings: &[u8], out: &mut [u8]) -> Result<Answer, Refusal> {
    let length = to_spans(s, readings, out)?;
    Ok(Answer::Written(length))
}

// Writes the readings one by one.
pub fn singles(s: &[u8], readings: &[u8], out: &mut [u8]) -> Result<Answer, Refusal> {
    let length = to_readings(s, readings, out)?;
    Ok(Answer::Written(length))
}

// Prints the text that a run has written.
pub fn print_written<W: Write>(
    output: &mut W,
    answer: Result<Answer, Refusal>,
    out: &[u8],
) -> io::Result<()> {
    if let Ok(Answer::Written(n)) = answer {
        if n <= out.len() {
            print(output, &out[..n])?;
        }
    }
    Ok(())
}
