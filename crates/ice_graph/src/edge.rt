//! Edges: rows that drive one wire from another.
ghost use Rattle.std.specs.Prelude.{◌≡◌};
ghost use Rattle.ice_graph.specs.Rows.{wire_at};

use ice_base::{RowNo, WireNo};

/// A row of the switch database that, where it is on, drives the wire `to` from the wire `from`.
#[derive(Clone, Copy, Debug, PartialEq, Eq)]
pub struct Edge {
    /// The number of the row.
    pub row: RowNo,
    /// The wire that the row reads.
    pub from: WireNo,
    /// The wire that the row drives.
    pub to: WireNo,
}

/// An end of an edge.
#[derive(Clone, Copy)]
pub enum End {
    /// The wire that the row reads.
    Source,
    /// The wire that the row drives.
    Target,
}

impl End {
    // The number of the wire at this end of the edge.
    pub fn wire(self, edge: Edge) -> u32
        ensures { result ≡ wire_at self edge }
    {
        match self {
            End::Source => edge.from.0,
            End::Target => edge.to.0,
        }
    }
}
