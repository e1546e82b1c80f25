//! The pads, pull-ups and globals that the ports and global buffers of a design get.
#![tactic(auto)]

mod assigning;
mod choices;
mod choosing;
mod closing;
mod direct;
mod fault;
mod free_globals;
mod given;
mod laws;
mod lines;
mod needs;
mod outer;
mod places;
mod progress;
mod rams;
mod tables;
mod want;
mod wires;

pub use assigning::{Pads, assign, assign_by};
pub use closing::Closing;
pub use fault::PinFault;
pub use free_globals::{global_wire, globals, serves};
pub use given::{Chosen, Given};
pub use laws::assigned_pads_fit;
pub use needs::{pins_of, wants};
pub use want::{Buffer, Pins, Want};
pub use wires::suits;
