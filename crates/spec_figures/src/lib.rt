// What the figures of several runs are, as a lent list of records has them. Definitions in specs/, theorems in proofs/, and no function.
#![tactic(auto)]

// A signal's figures: how many ticks of the runs it was true, false and unsettled, how many ticks the clashing runs have, and the first tick that
// was settled, or NO_TICK.
#[repr(C)]
#[derive(Drop)]
pub struct Record {
    pub signal: u64,
    pub held: u64,
    pub failed: u64,
    pub unsettled: u64,
    pub clashed: u64,
    pub first: u64,
}

// no_tick
pub const NO_TICK: u64 = 0xffff_ffff_ffff_ffff;
