//! Arrangements.
use crate::placement::Placement;
use ice_cells::Items;

/// Where the cells of a design stand.
#[derive(Drop)]
pub struct Arrangement {
    /// The rank of each cell, by which it stands among those of its kind; no ranks where they stand as the design has them.
    pub ranks: Items<u32>,
    /// The tile of each cluster.
    pub placement: Placement,
}
