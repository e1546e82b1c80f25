//! A placement that keeps its wire length under exchanges, and the descent.
#![tactic(auto)]

mod board;
mod net;
mod wiring;

pub use board::Board;
pub use net::{NetNodes, Node, length_of_net, node_tile};
pub use wiring::{Touched, Wiring, wiring_of};
