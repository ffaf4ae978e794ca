// Spans in ascending order, noted as numbers, joined where they overlap or touch. Assumes nothing of the numbers.
#![tactic(auto)]

ghost use Rattle.std.specs.Prelude.{◌≡◌, ◌<◌, ltb, length};
ghost use Rattle.spec_limits.specs.Limits.{most_ticks};
ghost use Rattle.read_bytes.specs.Bytes.{pick};
ghost use Rattle.read_readings.specs.SpanNumbers.{span_of};
ghost use Rattle.join_spans.specs.Joining.{meets};
ghost use Rattle.join_spans.specs.Runs.{in_row, RunFrom};

use read_readings::noted::ROW_SPANS;
use spec_limits::TICKS;

// A row's span, by the row's number in the order of signals and values, and the index after the numbers that were joined to it.
#[derive(Drop)]
pub struct Run {
    pub row: usize,
    pub first: usize,
    pub last: usize,
    pub next: usize,
}

// Does the span of the number w, which is not before one in the row that ends at the tick `last`, overlap or touch it?
fn meets_run(row: usize, last: usize, w: usize) -> bool
    requires { last < most_ticks }
    ensures { result ≡ meets (in_row row 0 last) (span_of w) }
{
    if w / ROW_SPANS == row {
        w / TICKS % TICKS <= last + 1
    } else {
        false
    }
}

// The larger of two ticks.
fn larger(a: usize, b: usize) -> usize
    ensures { result ≡ pick (ltb a b) (λ _. b) a }
{
    if a < b { b } else { a }
}

// The span that the number at i and those after it are joined to, up to the first that neither overlaps nor touches.
pub fn run_from(noted: &[u32], i: usize) -> Run
    requires { i < length noted.now }
    ensures { RunFrom noted.now i result.row result.first result.last result.next }
{
    let w = noted[i] as usize;
    let row = w / ROW_SPANS;
    let first = w / TICKS % TICKS;
    let mut last = w % TICKS;
    for next in i + 1..noted.len() {
        let v = noted[next] as usize;
        if !meets_run(row, last, v) {
            return Run {
                row,
                first,
                last,
                next,
            };
        }
        last = larger(last, v % TICKS);
    }
    Run {
        row,
        first,
        last,
        next: noted.len(),
    }
}
