//! An arrangement of a design with shorter wires: cells that may stand in each other's slots change places at random, and so do clusters on
//! the sites, with less and less that makes the wires longer. Nothing is claimed of what is found. Whatever the ranks are, there are clusters
//! by them, as many as by any others; and whatever the tiles are, those who take them look whether they are a legal placement.
#![tactic(auto)]

mod arranging;
mod beginning;
mod middles;
mod schedule;
mod search;

pub use arranging::{Arranged, arrange, arrange_clusters};
