//! Cheapest paths: the least cost of a walk from a route tree to a sink, and the taken path to one of its targets.
#![tactic(auto)]

mod aim;
mod back;
mod clear;
pub mod laws;
mod look;
mod queue;
mod scratch;
mod search;
mod start;

pub use scratch::{Scratch, connect, connect_ahead, path, settled};
