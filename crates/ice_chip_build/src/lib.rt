//! The faults of a chip database as a whole, which rows far apart make together, and the chip of rows that have none.
#![tactic(auto)]

mod chip;
mod faults;
mod groups;
mod lacking;
mod least;
mod marks;
mod named;
mod pins;
mod shared;

pub use chip::build;
pub use faults::whole_fault;
pub use groups::{group_beyond_tile, group_without_tile};
pub use lacking::lacks_function;
pub use named::name_of_two_wires;
pub use pins::shared_pin;
pub use shared::shared_function;
