//! Placed and routed designs, with what is looked up in them.
ghost use Rattle.std.specs.Prelude.{◌≡◌, slice_get};

use ice_base::TileAt;
use ice_emit_nets::DrivenWires;
use ice_graph::Tree;
use ice_place_defs::Placed;

/// A placed and routed design.
#[derive(Clone, Copy)]
pub struct Routed<'a> {
    /// The placed design.
    pub placed: Placed<'a>,
    /// The wires of its roots.
    pub wires: &'a DrivenWires,
    /// The trees of its nets.
    pub trees: &'a [Tree],
    /// The number of the tree that holds each wire.
    pub owners: &'a [Option<u32>],
}

/// The tile of that number.
pub fn tile_at(tiles: &[TileAt], k: usize) -> Option<TileAt>
    ensures { result ≡ slice_get tiles.now k }
{
    tiles.get(k).copied()
}
