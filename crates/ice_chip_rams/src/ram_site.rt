//! Two tiles that hold a block RAM.
use ice_base::TileAt;

/// Two tiles that hold a block RAM.
#[derive(Clone, Copy, Debug, PartialEq, Eq)]
pub struct RamSite {
    /// The place of the lower tile.
    pub lower: TileAt,
    /// The place of the upper tile, right above it.
    pub upper: TileAt,
}
