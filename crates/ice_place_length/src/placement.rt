//! The wire length of a placement.
ghost use Rattle.std.specs.Prelude.{◌≡◌, ◌≤◌, ◌^◌, length};
ghost use Rattle.ice_place_defs.specs.Length.{length_of};
ghost use Rattle.ice_place_length.specs.Plans.{plan_of};

use crate::length_of;
use ice_cells::{Clusters, Design};
use ice_chip::Chip;
use ice_pads::Pads;
use ice_place::Placement;
use ice_place_defs::Placed;

/// The wire length of a placement: over the nets whose root is no global, the half perimeters, in tiles, of the boxes of the
/// root's and the sinks' tiles. The chip gives the tile of what feeds each global; a direct global buffer is no sink. Takes no memory, and the time of the number
/// of nets by that of pins.
pub fn wire_length(
    chip: &Chip,
    clusters: &Clusters,
    design: &Design,
    placement: &Placement,
    pads: &Pads,
) -> u64
    requires ports { length pads.now.ports ≤ 2 ^ 32 }
    requires cells { length design.now.cells ≤ 2 ^ 32 }
    ensures { result ≡ length_of chip.now (plan_of clusters.now design.now placement.now pads.now) }
{
    length_of(&Placed {
        chip,
        design,
        clusters: clusters.list(),
        tiles: placement.tiles(),
        ports: pads.ports(),
        globals: pads.globals(),
        direct: pads.direct(),
    })
}
