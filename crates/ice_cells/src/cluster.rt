//! Clusters: the cells that go into one tile.
ghost use Rattle.std.specs.Prelude.{◌≡◌};

use crate::{Control, Items};

/// Cells that go into one tile, from slot 0 on, at most eight.
#[derive(Drop)]
pub struct TileCells {
    /// The numbers of the cells.
    pub cells: Items<u32>,
    /// The control set of its flip-flops, where there are any.
    pub control: Option<Control>,
    /// The run of which it is a chunk of eight, and which chunk.
    pub run: Option<(u32, u32)>,
}

/// The eight slots of a tile.
#[derive(Drop)]
pub struct Cluster {
    /// The cell in each slot.
    pub cells: Items<Option<u32>>,
    /// The control set of its flip-flops, where there are any.
    pub control: Option<Control>,
    /// The run of which it is a chunk of eight, and which chunk.
    pub run: Option<(u32, u32)>,
}

/// The clusters of a design.
#[derive(Drop)]
pub struct Clusters {
    /// The clusters, in order.
    pub list: Items<Cluster>,
}

impl Clusters {
    /// The clusters as a slice. Takes no memory.
    pub fn list(&self) -> &[Cluster]
        ensures { result.now ≡ self.now.list }
    {
        self.list.as_slice()
    }
}
