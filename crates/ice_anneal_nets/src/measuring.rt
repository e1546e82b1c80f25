//! Nets by which placements are measured.
ghost use Rattle.std.specs.Prelude.{◌≡◌, List, IfOk, length};
ghost use Rattle.std.specs.List.{All};
ghost use Rattle.ice_base.specs.declared.number.TileAt.{TileAt};
ghost use Rattle.ice_place_defs.specs.Length.{length_of};
ghost use Rattle.ice_anneal_board.specs.Length.{IsNet, wire_length};
ghost use Rattle.ice_anneal_nets.specs.Nodes.{plan_at};

use crate::building::nets_of;
use ice_anneal_board::NetNodes;
use ice_base::NoMemory;
use ice_place_defs::Placed;
use std::alloc::Global;

/// Nets by nodes, by which placements of a design's clusters are as long as the placed design; the tiles of `placed` don't
/// matter. It fails for want of memory alone.
pub fn measuring_nets(alloc: Global, placed: &Placed<'_>) -> Result<Vec<NetNodes>, NoMemory>
    ensures nets { IfOk result (λ nets. All (IsNet (length placed.now.clusters.now)) nets.items) }
    ensures lengths { IfOk result (λ nets.
        (at : List TileAt) → length at ≡ length placed.now.clusters.now
        → wire_length nets.items at ≡ length_of placed.now.chip.now (plan_at placed.now at)) }
{
    let nets = nets_of(alloc, placed)?;
    Ok(nets)
}
