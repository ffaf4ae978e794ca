// What a run answers. Assumes nothing.
use run_cases::{print_number, print_refusal};
use spec_refusals::Refusal;
use std::io;
use std::io::Write;

// How many rules the sheet has; its rows; the facts before the readings; how many facts are new, and whether there is a clash; the length of the text
// that a move wrote.
#[derive(Clone, Copy)]
pub enum Answer {
    Rules(usize),
    Rows(usize),
    Before(usize),
    Added { new: usize, clash: bool },
    Written(usize),
}

// Prints an answer.
pub fn print_answer<W: Write>(output: &mut W, answer: Result<Answer, Refusal>) -> io::Result<()> {
    let told = match answer {
        Ok(told) => told,
        Err(r) => return print_refusal(output, r.number(), r.place),
    };
    match told {
        Answer::Rules(n) => print_number(output, b"rules=", n as u64, b"\n"),
        Answer::Rows(n) => print_number(output, b"rows=", n as u64, b"\n"),
        Answer::Before(n) => print_number(output, b"before=", n as u64, b"\n"),
        Answer::Added { new, clash } => {
            print_number(output, b"facts=", new as u64, b"\n")?;
            print_number(output, b"clash=", clash as u64, b"\n")
        }
        Answer::Written(n) => print_number(output, b"length=", n as u64, b"\n"),
    }
}
