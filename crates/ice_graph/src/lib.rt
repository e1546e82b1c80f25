//! Switches between wires as a graph: each edge is a row of the switch database that drives one wire
//! from another, and the rows into a wire and from a wire are found at once.
#![tactic(auto)]

mod boxes;
mod edge;
mod extent;
mod graph;
mod index;
pub mod laws;
mod levels;
mod table;
mod tree;

pub use edge::Edge;
pub use extent::Extent;
pub use graph::Graph;
pub use table::Hops;
pub use tree::Tree;
