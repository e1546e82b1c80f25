//! The command `sample`: the sample netlist of a number is placed and routed on the sample chip, and a summary is said.
#![tactic(auto)]

mod routing;
mod sampling;
mod summing;
mod texts;

pub use sampling::sample;
