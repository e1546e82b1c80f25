//! Raising: each worker claims blocks of histories, and raises those of the wires that are overused.
#![tactic(auto)]

pub mod laws;
mod raise;

pub use raise::raise_blocks;
