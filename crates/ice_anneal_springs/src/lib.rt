//! Places for the cells of a design by springs: each cell is drawn to the middle of its nets, and all are spread over the sites. Nothing is
//! claimed of it.
#![tactic(auto)]

mod nodes;
mod point;
mod regions;
mod springs;

pub use nodes::NodeLists;
pub use point::{Mean, Point};
pub use springs::wanted_places;
