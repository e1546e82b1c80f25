//! Names at places.

use crate::WireText;
use ice_base::TileAt;

/// A name at a place.
#[derive(Drop)]
pub struct PlacedName {
    /// The place.
    pub tile: TileAt,
    /// The name.
    pub name: WireText,
}
