//! What bits without a fault are, said without the order in which faults are looked for.
#![tactic(auto)]

pub mod laws;
