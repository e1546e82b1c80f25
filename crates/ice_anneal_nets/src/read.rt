//! What reads a root.
use ice_anneal_board::Node;
use ice_cells::Root;

/// A node that reads a root.
#[derive(Clone, Copy)]
pub struct Read {
    pub root: Root,
    pub node: Node,
}
