//! The ends of carry chains get carries of their own, so that their logic cells stand in the runs of the chains.
#![tactic(auto)]

mod adding;
mod choosing;
pub mod laws;
mod reading;
mod tailing;

pub use tailing::add_tails;
