// The looks of an interval and their joins. Offsets are written with 64 added.
ghost use Rattle.std.specs.Prelude.{map, ◌≤◌};
ghost use Rattle.spec_limits.specs.Limits.{most_rows, most_offset};
ghost use Rattle.lower_rows.specs.RowCodes.{row_code};
ghost use Rattle.lower_rows.specs.RowWrites.{RowBuffer, NearInterval, looks, gates, last_gate, WroteRows, Spreads};

use crate::words::{Lowered, gate_code, look_code};

// n looks at the row child, from the offset first up, in the rows from used on.
fn write_looks(child: u16, first: u16, n: usize, out: &mut [u64], used: usize) -> Option<Lowered>
    requires offsets { (first ≤ most_offset) × (n ≤ most_offset) }
    requires row_buffer { RowBuffer out.old used }
    ensures { WroteRows (map row_code (looks child first n)) used used out.old out.new result }
{
    if out.len() - used < n {
        return None;
    }
    for i in 0..n {
        let offset = first + i as u16;
        out[used + i] = look_code(child, offset);
    }
    Some(Lowered {
        row: used as u16,
        used: (used + n) as u16,
    })
}

// The n gates that join the n + 1 rows from first on, from the left, in the rows from used on.
fn write_gates(gate: bool, first: usize, n: usize, out: &mut [u64], used: usize) -> Option<Lowered>
    requires joined_rows { (first ≤ most_rows) × (n ≤ most_offset) }
    requires row_buffer { RowBuffer out.old used }
    ensures { WroteRows (map row_code (gates gate first used n)) (last_gate first used n) used out.old out.new result }
{
    if out.len() - used < n {
        return None;
    }
    let mut last = first;
    for i in 0..n {
        let left = last as u16;
        let right = (first + i + 1) as u16;
        out[used + i] = gate_code(gate, left, right);
        last = used + i;
    }
    Some(Lowered {
        row: last as u16,
        used: (used + n) as u16,
    })
}

// The looks at the row child over the interval of the offset first and so many more, then their joins by and (true) or by or (false).
pub fn spread(
    child: u16,
    gate: bool,
    first: u16,
    more: u16,
    out: &mut [u64],
    used: usize,
) -> Option<Lowered>
    requires near_interval { NearInterval first more }
    requires row_buffer { RowBuffer out.old used }
    ensures { Spreads gate first more child used out.old out.new result }
{
    let joins = more as usize;
    let count = joins + 1;
    let looks = write_looks(child, first, count, out, used)?;
    write_gates(gate, used, joins, out, looks.used as usize)
}
