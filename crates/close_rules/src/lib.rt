// The inference rules at one word of a table of marks: definitions in specs/ and laws in proofs/, and of the code what kind of row a row code says.
// Assumes nothing.
#![tactic(auto)]

ghost use Rattle.std.specs.Prelude.{◌%◌};
ghost use Rattle.spec_limits.specs.Limits.{code_kinds};
ghost use Rattle.close_rules.specs.Kinds.{HasKind};

use spec_limits::KINDS;

// The kinds of rows.
#[derive(Clone, Copy)]
pub enum Kind {
    Signal,
    And,
    Or,
    Look,
    Not,
}

// The kind in a row code.
pub fn kind_of(w: u64) -> Kind
    ensures { HasKind result (w % code_kinds) }
{
    match w % KINDS {
        0 => Kind::Signal,
        1 => Kind::And,
        2 => Kind::Or,
        3 => Kind::Look,
        _ => Kind::Not,
    }
}
