//! How far nets reach over the places of a chip, by how much they grow where nodes change places, and where they end. Nothing is claimed of it.
#![tactic(auto)]

mod ends;
mod extent;
mod outline;
mod spread;
mod standing;
mod touches;

pub use ends::{Ends, Middle};
pub use outline::NetPlaces;
pub use standing::Standing;
pub use touches::{Span, Touch, TouchLists};
