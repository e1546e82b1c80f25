//! How hands on one table stand to one another: what a main hand, splits and joins keep, said once for all tables of words that threads share. `specs/` has the definitions, `proofs/` the lemmas.
#![tactic(auto)]

/// The hands that are split off a main hand: up to this number, so that with it there are as many as tasks at most.
pub const MOST_SPLITS: u32 = 65_535;
