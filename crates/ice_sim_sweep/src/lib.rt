//! Sweeps through arrays of slots, and the simulator of netlists, which are compiled to such an array.
#![tactic(auto)]

mod feeds;
mod flops;
mod parts;
mod plan;
mod playing;
mod run;
mod sweeping;
mod wiring;

pub use ice_net::Drive;
pub use parts::{Feed, Gate, Keeper, Link, Memory, Tap};
pub use plan::SweepPlan;
pub use playing::play;
pub use run::{NetRun, blanks};
pub use sweeping::sweep;
pub use wiring::wired;
