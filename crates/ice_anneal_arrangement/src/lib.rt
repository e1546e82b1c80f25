//! Clusters of a design in an order of its cells that makes the wires no longer, and their placement.
#![tactic(auto)]

mod measuring;
mod ordering;
mod settling;

pub use ordering::{Ordered, in_own_order};
pub use settling::{Settled, settle};
