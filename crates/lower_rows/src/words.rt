// Row codes, one row more in the buffer, and a signal in a sense. A signal's own row is not written: its row code is SIGNAL, which the buffer
// is lent with.
ghost use Rattle.std.specs.Prelude.{◌≡◌, [], ◌∷◌};
ghost use Rattle.spec_tilco.specs.Inference.{gate as gate_of, look};
ghost use Rattle.spec_tilco.specs.Lowering.{lit};
ghost use Rattle.lower_rows.specs.RowCodes.{row_code};
ghost use Rattle.lower_rows.specs.RowWrites.{RowBuffer, WroteRows, Lowers};

use spec_limits::{KINDS, NUMBERS};

// The row code of a signal: of kind 0, with the number 1.
pub const SIGNAL: u64 = KINDS;

// The top row of what was written, and the rows then used: the next row's number. Two row numbers keep the answer small, which speed asks.
#[derive(Clone, Copy)]
pub struct Lowered {
    pub row: u16,
    pub used: u16,
}

// The row code of a gate: an and (true) or an or (false) of the rows a and b.
#[tactic(auto, unfolding(crate::specs::RowCodes::row_code, crate::specs::RowCodes::packed))]
pub fn gate_code(gate: bool, a: u16, b: u16) -> u64
    ensures { result ≡ row_code (gate_of gate a b) }
{
    let rows = KINDS * (a as u64 + NUMBERS * b as u64);
    if gate { 1 + rows } else { 2 + rows }
}

// The row code of a look at the row child, at an offset with 64 added.
#[tactic(auto, unfolding(crate::specs::RowCodes::row_code, crate::specs::RowCodes::packed))]
pub fn look_code(child: u16, offset: u16) -> u64
    ensures { result ≡ row_code (look offset child) }
{
    3 + KINDS * (child as u64 + NUMBERS * offset as u64)
}

// One row more, or none if there is no room.
pub fn push_row(code: u64, out: &mut [u64], used: usize) -> Option<Lowered>
    requires { RowBuffer out.old used }
    ensures { WroteRows (code ∷ []) used used out.old out.new result }
{
    if out.len() - used < 1 {
        return None;
    }
    out[used] = code;
    Some(Lowered {
        row: used as u16,
        used: (used + 1) as u16,
    })
}

// A signal in a sense: its own row in the true one, a not-row in the false one.
pub fn name_row(signal: u16, sense: bool, out: &mut [u64], used: usize) -> Option<Lowered>
    requires { RowBuffer out.old used }
    ensures { Lowers (lit sense signal) used out.old out.new result }
{
    if sense {
        Some(Lowered {
            row: signal,
            used: used as u16,
        })
    } else {
        push_row(4 + KINDS * signal as u64, out, used)
    }
}
