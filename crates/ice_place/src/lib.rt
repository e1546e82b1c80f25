//! The first placement of clusters on the sites of a chip: runs of carries by first fit, and the other clusters on the sites
//! that are left.
#![tactic(auto)]

mod arrangement;
mod fault;
mod first;
mod fit;
mod placement;
mod refusal;

pub use arrangement::Arrangement;
pub use fault::PlaceFault;
pub use first::first_place;
pub use placement::Placement;
