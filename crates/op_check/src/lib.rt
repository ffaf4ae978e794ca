// check: the sheet's row count, or a refusal. Assumes nothing.
#![tactic(auto)]

ghost use Rattle.std.specs.Prelude.{◌≡◌};
ghost use Rattle.op_check.specs.CheckingSays.{checking_says};
ghost use Rattle.spec_operations.specs.Operations.{checked};

use open_sheet::open_sheet;
use read_index::INDEX;
use spec_limits::{ROWS, TOPS};
use spec_refusals::Refusal;

// Checks the sheet: its row count, or a refusal.
pub fn check(s: &[u8]) -> Result<usize, Refusal>
    ensures { checking_says result ≡ checked s.now }
{
    let mut names = [0u16; INDEX];
    let mut rows = [8u64; ROWS];
    let mut tops = [0u16; TOPS];
    let sheet = open_sheet(s, &mut names, &mut rows, &mut tops)?;
    Ok(sheet.count)
}
