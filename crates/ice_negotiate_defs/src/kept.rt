//! What the opening leaves of a net.
use ice_base::WireNo;
use ice_graph::Tree;

/// What the opening leaves of a net.
#[derive(Debug, Drop)]
pub enum Kept {
    /// It keeps its tree at price 1 for every wire, of which no other kept tree has a wire.
    Whole(Tree),
    /// It lost this wire of that tree, which another net's has too.
    Lost(WireNo),
    /// No walk leads from its root to any target of a sink, of which this is the first.
    Cut(WireNo),
}
