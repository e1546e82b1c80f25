//! The law of runs, as the contract of a function that does nothing.
ghost use Rattle.ice_carry_chains.specs.Laws.{RunsHoldTheCarries};

/// The runs of a design hold each cell that has a carry exactly once, and of their cells all but the last have one.
pub fn runs_hold_the_carries()
    ensures { RunsHoldTheCarries }
{}
