//! Where clusters and cells stand while an arrangement is looked for, and the numbers that are drawn there. Nothing is claimed of it.
#![tactic(auto)]

mod floor;
mod places;
mod seats;
mod words;

pub use floor::Floor;
pub use places::{Grid, Place};
pub use seats::Seats;
pub use words::{below, spare};
