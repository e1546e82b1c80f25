//! What is kept of each round.
use ice_base::{NetNo, WireNo};
use ice_graph::Tree;

/// What happened in one round of routing.
#[derive(Debug, Drop)]
pub struct RoundLog {
    /// The number of the round, from 1.
    pub round: u32,
    /// The wires that had been overused before, each with its history, by rising number.
    pub history: Vec<(WireNo, u64)>,
    /// The nets that moved, each with its new tree, by rising number.
    pub moved: Vec<(NetNo, Tree)>,
    /// The wires that more than one net holds after the round, each with the number of these nets, by
    /// rising number.
    pub over: Vec<(WireNo, u32)>,
}
