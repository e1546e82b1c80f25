//! The lengths of nets.
ghost use Rattle.std.specs.Prelude.{◌≡◌, ◌≤◌, ◌^◌, ◌*◌, ◌+◌, length, map, slice_get, option_map};
ghost use Rattle.std.specs.List.{range_with_len};
ghost use Rattle.ice_cells.specs.Tables.{is_place};
ghost use Rattle.ice_place_defs.specs.Plan.{slot_in, slot_tile, slot_among, pad_tile, root_tile, plan_in};
ghost use Rattle.ice_place_defs.specs.Length.{sum, pad_root, cell_root, net_length, length_of};
ghost use Rattle.ice_place_length.specs.Grown.{loads_in};

use crate::boxes::{half_perimeter, span_at};
use crate::loads::with_loads;
use ice_base::TileAt;
use ice_cells::{Cluster, Root};
use ice_chip::Pad;
use ice_place_defs::Placed;

// Whether a slot holds the cell.
fn is_place(cell: u32, slot: Option<u32>) -> bool
    ensures { result ≡ is_place cell slot }
{
    match slot {
        None => false,
        Some(c) => c == cell,
    }
}

// The slot of a cluster that holds the cell.
fn slot_in(cluster: &Cluster, cell: u32) -> Option<usize>
    ensures { result ≡ slot_in cluster.now cell }
{
    cluster
        .cells
        .as_slice()
        .iter()
        .position(|slot| is_place(cell, *slot))
}

// The tile in which a cell stands.
fn cell_tile(clusters: &[Cluster], tiles: &[TileAt], cell: u32) -> Option<TileAt>
    ensures { result ≡ option_map slot_tile (slot_among clusters.now tiles.now cell) }
{
    for k in 0..clusters.len().min(tiles.len()) {
        if slot_in(&clusters[k], cell).is_some() {
            return Some(tiles[k]);
        }
    }
    None
}

// The tile of a pad.
fn pad_tile(ports: &[Pad], k: u32) -> Option<TileAt>
    ensures { result ≡ option_map pad_tile (slice_get ports.now k) }
{
    match ports.get(k as usize) {
        None => None,
        Some(pad) => Some(pad.tile),
    }
}

// The tile where a root stands, other than a global.
fn root_tile(placed: &Placed<'_>, root: Root) -> Option<TileAt>
    ensures { result ≡ root_tile (plan_in placed.now) root }
{
    match root {
        Root::PadIn(k) => pad_tile(placed.ports, k),
        Root::CellOut(c) => cell_tile(placed.clusters, placed.tiles, c),
        Root::GlobalOut(_) => None,
        Root::CarryOut(_) => None,
    }
}

// The half perimeter of the net of a root.
fn net_length(placed: &Placed<'_>, root: Root) -> u64
    ensures value { result ≡ net_length (plan_in placed.now) (loads_in placed.now) root }
    ensures bound { result ≤ 131070 }
{
    match root_tile(placed, root) {
        None => 0,
        Some(tile) => half_perimeter(with_loads(span_at(tile), root, placed)),
    }
}

// The lengths of the nets of all pads.
fn pads_length(placed: &Placed<'_>) -> u64
    requires { length placed.now.ports.now ≤ 2 ^ 32 }
    ensures value { result
        ≡ sum (map (λ k. net_length (plan_in placed.now) (loads_in placed.now) (pad_root k))
        (range_with_len 0 (length placed.now.ports.now))) }
    ensures bound { result ≤ 131070 * length placed.now.ports.now }
{
    let mut total = 0;
    for k in 0..placed.ports.len() {
        total += net_length(placed, Root::PadIn(k as u32));
    }
    total
}

// The lengths of the nets of all cells.
fn cells_length(placed: &Placed<'_>) -> u64
    requires { length placed.now.design.now.cells ≤ 2 ^ 32 }
    ensures value { result
        ≡ sum (map (λ c. net_length (plan_in placed.now) (loads_in placed.now) (cell_root c))
        (range_with_len 0 (length placed.now.design.now.cells))) }
    ensures bound { result ≤ 131070 * length placed.now.design.now.cells }
{
    let mut total = 0;
    for c in 0..placed.design.cells().len() {
        total += net_length(placed, Root::CellOut(c as u32));
    }
    total
}

/// The wire length of a placed design: over the nets whose root is no global, the half perimeters, in tiles, of the boxes of
/// the root's and the sinks' tiles. Takes no memory, and the time of the number of nets by that of pins.
pub fn length_of(placed: &Placed<'_>) -> u64
    requires ports { length placed.now.ports.now ≤ 2 ^ 32 }
    requires cells { length placed.now.design.now.cells ≤ 2 ^ 32 }
    ensures { result ≡ length_of placed.now.chip.now (plan_in placed.now) }
{
    pads_length(placed) + cells_length(placed)
}
