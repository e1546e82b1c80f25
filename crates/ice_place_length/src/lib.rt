//! The wire length of a placed design: the sum of the half perimeters of its nets.
#![tactic(auto)]

mod boxes;
mod loads;
mod nets;
mod placement;

pub use boxes::{Span, half_perimeter, span_at, with_tile};
pub use nets::length_of;
pub use placement::wire_length;
