//! Route trees.
use ice_base::{RowNo, WireNo};

/// The route of a net: the wires that it holds and the rows that are on for it.
#[derive(Debug, Drop)]
pub struct Tree {
    /// The wires in the order of addition, the root first.
    pub wires: Vec<WireNo>,
    /// The rows in the order of addition.
    pub rows: Vec<RowNo>,
}
