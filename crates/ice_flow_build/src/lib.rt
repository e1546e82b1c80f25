//! From a netlist that was read and checked to the bits of a chip: the design is packed, placed, routed and written.
#![tactic(auto)]

mod aiming;
mod answer;
mod building;
mod checking;
pub mod laws;
mod laying;
mod routing;

pub use aiming::aim;
pub use answer::{BuildFault, Built, Effort, Layout, RoutedLayout, arrangement_of, tallies_of};
pub use building::build;
pub use laying::{design_of, lay_out};
pub use routing::{nets_in, route, route_layout};
