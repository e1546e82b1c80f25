//! The graph of the usable rows of a chip.
ghost use Rattle.std.specs.Prelude.{◌≡◌, ◌<◌, ◌≤◌, ◌+◌, ◌++◌, [], ◌∷◌, List, length, IfOk, OnOk, if◌then◌else◌};
ghost use Rattle.std.specs.List.{Contains};
ghost use Rattle.ice_chip.specs.IsRead.{HasWiresBelow};
ghost use Rattle.ice_chip.specs.Limits.{most_rows};
ghost use Rattle.ice_chip.specs.Views.{row_view, group_view};
ghost use Rattle.ice_bits_rows.specs.Uses.{AreUses};
ghost use Rattle.ice_graph.specs.Network.{ArePlaces};
ghost use Rattle.ice_fabric.specs.Edges.{edges_of, places_of, usable_places, usable_rows};

use ice_base::{NoMemory, RowNo, TileAt};
use ice_bits_rows::{Index, WireUse, is_open, is_plain, is_taken, uses_of};
use ice_chip::{Chip, Group};
use ice_graph::{Edge, Graph};
use std::alloc::Global;

// Adds an edge and the tile of its group, where its row is taken.
fn add_row(
    taken: bool,
    edge: Edge,
    tile: TileAt,
    edges: &mut Vec<Edge>,
    places: &mut Vec<TileAt>,
) -> Result<(), NoMemory>
    ensures edges { OnOk result
        (edges.new.items ≡ (if taken then edges.old.items ++ edge ∷ [] else edges.old.items)) }
    ensures places { OnOk result
        (places.new.items ≡ (if taken then places.old.items ++ tile ∷ [] else places.old.items)) }
{
    if taken {
        edges.push(edge)?;
        places.push(tile)?;
    }
    Ok(())
}

// Adds the usable rows of a group to the edges, and its tile to the places for each.
fn add_group(
    index: &Index,
    uses: &[WireUse],
    group: &Group,
    edges: &mut Vec<Edge>,
    places: &mut Vec<TileAt>,
) -> Result<(), NoMemory>
    requires uses { AreUses index.now.chip.now uses.now }
    requires wires { HasWiresBelow index.now.chip.now.wires (group_view group.now) }
    requires few { group.now.first.0 + length group.now.rows.items ≤ most_rows }
    requires member { Contains index.now.chip.now.groups (group_view group.now) }
    ensures edges { OnOk result (edges.new.items ≡ edges.old.items ++ edges_of index.now.chip.now
        (group_view group.now) group.now.first.0 (group_view group.now).rows) }
    ensures places { OnOk result (places.new.items ≡ places.old.items ++ places_of
        index.now.chip.now (group_view group.now) group.now.first.0 (group_view group.now).rows) }
{
    if !is_open(index, uses, group) {
        return Ok(());
    }
    let plain = is_plain(index, group);
    for k in 0..group.rows.len() {
        let row = &group.rows[k];
        let number = group.first.0 + k as u32;
        let taken = is_taken(index, uses, group, plain, number, row);
        let edge = Edge {
            row: RowNo(number),
            from: row.source,
            to: group.wire,
        };
        add_row(taken, edge, group.tile, edges, places)?;
    }
    Ok(())
}

// The usable rows, in row order, and the tile of the group of each.
fn usable_rows(
    alloc: Global,
    index: &Index,
    uses: &[WireUse],
) -> Result<(Vec<Edge>, Vec<TileAt>), NoMemory>
    requires uses { AreUses index.now.chip.now uses.now }
    ensures edges { IfOk result (λ r. r.0.items ≡ usable_rows index.now.chip.now) }
    ensures places { IfOk result (λ r. r.1.items ≡ usable_places index.now.chip.now) }
{
    index.chip.is_chip();
    let most = index.chip.rows() as usize;
    let mut edges = Vec::with_capacity(alloc, most)?;
    let mut places = Vec::with_capacity(alloc, most)?;
    for group in index.chip.groups() {
        add_group(index, uses, group, &mut edges, &mut places)?;
    }
    Ok((edges, places))
}

/// The graph of the rows of an indexed chip that a route may use, as [`fabric`] makes it.
pub fn fabric_by(alloc: Global, index: &Index) -> Result<Graph, NoMemory>
    ensures wires { IfOk result (λ graph. graph.wires ≡ index.now.chip.now.wires) }
    ensures edges { IfOk result (λ graph. graph.edges ≡ usable_rows index.now.chip.now) }
    ensures places { IfOk result (λ graph. ArePlaces graph (usable_places index.now.chip.now)) }
{
    let wires = index.chip.wires();
    let uses = uses_of(alloc, index.chip)?;
    let (edges, places) = usable_rows(alloc, index, &uses)?;
    Graph::placed(alloc, wires, edges, places)
}

/// The graph of the rows that a route may use: its wires are those of the chip, and its edges the usable rows, in the
/// order of their numbers, each at the tile of its group. A row is usable where these hold:
///
/// - The groups of its tile into its wire share no bit with the groups there into another wire, nor with a foreign
///   function of the tile's kind.
/// - With its values in its group's bits, and 0 in the other bits of those groups, it is the one row of them that is on.
/// - Its source has no input name, its wire no output name, and neither has a name that begins with `ram/` or is
///   `lutff_I/lout`.
///
/// It fails for want of memory alone.
pub fn fabric(alloc: Global, chip: &Chip) -> Result<Graph, NoMemory>
    ensures wires { IfOk result (λ graph. graph.wires ≡ chip.now.wires) }
    ensures edges { IfOk result (λ graph. graph.edges ≡ usable_rows chip.now) }
    ensures places { IfOk result (λ graph. ArePlaces graph (usable_places chip.now)) }
{
    let index = Index::new(alloc, chip)?;
    let graph = fabric_by(alloc, &index)?;
    Ok(graph)
}
