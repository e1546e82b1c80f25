//! The nets of a placed design: for each root that is read, the wire that drives it and the wires at which its sinks are
//! reached.
#![tactic(auto)]

mod cells;
mod clusters;
mod collecting;
mod free;
mod globals;
mod lists;
mod making;
mod pads;
mod pins;
mod placed;
mod slots;
mod wires;

pub use cells::is_free;
pub use making::{nets_of, placed_of};
pub use pins::{TilePin, pin_wire};
pub use wires::{DrivenWires, wires_of};
