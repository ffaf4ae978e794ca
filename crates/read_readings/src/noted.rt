// Spans noted as numbers in a lent array, and their marks put from there into a table. Assumes nothing of the array.
ghost use Rattle.std.specs.Prelude.{◌≡◌, ◌<◌, ◌≤◌, length};
ghost use Rattle.spec_limits.specs.Limits.{most_ticks, most_signals};
ghost use Rattle.spec_tilco.specs.Lists.{All};
ghost use Rattle.table_marks.specs.Puts.{Puts};
ghost use Rattle.read_reading.specs.Spans.{span, marks_of_all};
ghost use Rattle.read_readings.specs.SpanNumbers.{span_of, spans_in, SpanRoom};

use spec_limits::TICKS;
use table_spans::put_span;

// row_spans: a row's marks of one value have numbers for so many spans.
pub const ROW_SPANS: usize = TICKS * TICKS;

// The number of a span. The two rows of a signal's marks have those of value 0 first.
pub fn number_of(signal: usize, value: bool, first: usize, last: usize) -> u32
    requires { (signal < most_signals) × (first < most_ticks) × (last < most_ticks) }
    ensures { span_of result ≡ span signal value first last }
{
    let row = 2 * signal + value as usize;
    (last + TICKS * (first + TICKS * row)) as u32
}

// Puts the marks of the spans that the array's first `count` numbers are into the table.
pub fn put_noted(noted: &[u32], count: usize, n: usize, table: &mut [u64])
    requires { (count ≤ length noted.now) × All (SpanRoom n (length table.old)) (spans_in noted.now count) }
    ensures { Puts n (marks_of_all (spans_in noted.now count)) table.old table.new }
{
    for i in 0..count {
        let w = noted[i] as usize;
        let signal = w / (2 * ROW_SPANS);
        let value = w / ROW_SPANS % 2 == 1;
        let first = w / TICKS % TICKS;
        let last = w % TICKS;
        put_span(table, n, signal, value, first, last);
    }
}
