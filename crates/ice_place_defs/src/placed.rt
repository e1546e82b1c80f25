//! Placed designs.
use ice_base::TileAt;
use ice_cells::{Cluster, Design};
use ice_chip::{Chip, Pad};

/// A placed design: the tile of each cluster, the pad of each port, the number of the global of each global buffer, and whether
/// the buffer is direct.
#[derive(Clone, Copy)]
pub struct Placed<'a> {
    /// The chip.
    pub chip: &'a Chip,
    /// The design.
    pub design: &'a Design,
    /// Its clusters.
    pub clusters: &'a [Cluster],
    /// The tile of each cluster.
    pub tiles: &'a [TileAt],
    /// The pad of each port.
    pub ports: &'a [Pad],
    /// The number of the global of each global buffer, from 0 to 7.
    pub globals: &'a [u8],
    /// Whether each global buffer is direct.
    pub direct: &'a [bool],
}
