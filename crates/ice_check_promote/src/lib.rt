//! Clocks of many flip-flops take the global networks that are free.
#![tactic(auto)]

mod choosing;
mod counting;
mod filling;
mod free;
pub mod laws;
mod promoting;
mod targets;

pub use free::free_beside;
pub use promoting::promote;
