//! Clusters of logic cells: the chunks of runs, flip-flops by their control sets, and plain cells in the slots that are free.
#![tactic(auto)]

mod clustering;
mod filling;
pub mod laws;
mod ranking;
mod sets;
mod sorting;

pub use clustering::{cluster, cluster_by};
