//! The nets of a design by the clusters and the tiles in which they have pins.
#![tactic(auto)]

mod building;
mod holders;
mod measuring;
mod read;
mod reading;
mod sorting;

pub use measuring::measuring_nets;
pub use read::Read;
pub use sorting::Readers;
