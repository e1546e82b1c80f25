//! How long the ways of signals are by where cells stand, about as long as they will be in the bits, and which connections want to be short.
//! Nothing is claimed of it.
#![tactic(auto)]

mod delays;
mod order;
mod pulls;
mod ways;

pub use pulls::{End, Pull, Pulls};
pub use ways::Ways;
