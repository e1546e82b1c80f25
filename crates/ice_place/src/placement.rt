//! Placements.
ghost use Rattle.std.specs.Prelude.{◌≡◌};

use ice_base::TileAt;
use std::marker::Model;

/// The tile of each cluster. Contracts see it as the list of the tiles.
#[derive(Drop)]
pub struct Placement {
    tiles: Vec<TileAt>,
}

impl Model for Placement {
    ghost use Rattle.std.specs.Prelude.{List};
    ghost use Rattle.ice_base.specs.declared.number.TileAt.{TileAt};

    ghost Value = { List TileAt };

    ghost view = { λ placement. placement.tiles.items };
}

impl Placement {
    /// These tiles, one for each cluster. Takes no memory, as the other calls.
    pub fn from_vec(tiles: Vec<TileAt>) -> Placement
        ensures { result ≡ tiles.items }
    {
        Placement { tiles }
    }

    /// The tile of each cluster.
    pub fn tiles(&self) -> &[TileAt]
        ensures { result.now ≡ self.now }
    {
        self.tiles.as_slice()
    }
}
