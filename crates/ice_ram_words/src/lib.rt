//! The words of netlist texts that speak of RAMs: their kinds, their formals and the names of their contents. A RAM has sixty
//! inputs and sixteen outputs, which no cell of a netlist has.
#![tactic(auto)]

mod formal;
mod kind;

pub use formal::{RAM_INPUTS, RAM_PLACES, place};
pub use kind::{Edges, edges_named, row_named};
