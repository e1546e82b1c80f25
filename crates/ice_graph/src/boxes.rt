//! Boxes around wires, by the places of their edges.
ghost use Rattle.std.specs.Prelude.{◌≡◌, ◌+◌, ◌<◌, ◌≤◌, ℕ, Option, Some, None, length, slice_get, slice_set, IfOk};
ghost use Rattle.ice_base.specs.declared.number.TileAt.{TileAt as Tile};
ghost use Rattle.ice_graph.specs.declared.edge.Edge.{Edge as GraphEdge};
ghost use Rattle.ice_graph.specs.Boxes.{AreBoxes, AreBoxesUpTo, IsBoxOf, IsSpread, box_of, grown_by};
ghost use Rattle.ice_graph.specs.Network.{AreBetween};

use crate::edge::Edge;
use crate::extent::Extent;
use ice_base::{NoMemory, TileAt};
use std::alloc::Global;

// Has the box of a wire hold this tile, too.
fn grow(boxes: &mut [Option<Extent>], wire: usize, tile: TileAt)
    requires { wire < length boxes.old }
    ensures { boxes.new ≡ slice_set boxes.old wire (Some (grown_by (box_of boxes.old wire) tile)) }
{
    boxes[wire] = Some(match boxes[wire] {
        Some(extent) => {
            if extent.holds(tile) {
                return;
            }
            extent.grown(tile)
        }
        None => Extent::of(tile),
    });
}

// Has the boxes of the wires hold the places of their edges.
#[tactic(auto, using(crate::proofs::Growing::boxes_none))]
fn grow_all(wires: u32, edges: &[Edge], places: &[TileAt], boxes: &mut [Option<Extent>])
    requires between { AreBetween wires edges.now }
    requires places { length places.now ≡ length edges.now }
    requires long { length boxes.old ≡ wires }
    requires none { (w : ℕ) → box_of boxes.old w ≡ None }
    ensures { AreBoxes wires edges.now places.now boxes.new }
{
    for i in 0..edges.len() {
        let edge = edges[i];
        let tile = places[i];
        grow(boxes, edge.from.0 as usize, tile);
        grow(boxes, edge.to.0 as usize, tile);
    }
}

// The box of each wire.
pub fn boxes_of(
    alloc: Global,
    wires: u32,
    edges: &[Edge],
    places: &[TileAt],
) -> Result<Vec<Option<Extent>>, NoMemory>
    requires between { AreBetween wires edges.now }
    requires places { length places.now ≡ length edges.now }
    ensures { IfOk result (λ boxes. AreBoxes wires edges.now places.now boxes.items) }
{
    let mut boxes = vec![in alloc; None; wires as usize]?;
    grow_all(wires, edges, places, &mut boxes);
    Ok(boxes)
}

// The greatest half perimeter of the boxes of wires with an edge into them.
pub fn spread_of(wires: u32, edges: &[Edge], boxes: &[Option<Extent>]) -> u32
    requires between { AreBetween wires edges.now }
    requires long { length boxes.now ≡ wires }
    ensures spread { IsSpread edges.now boxes.now result }
    ensures small { result ≤ 131070 }
{
    let mut spread = 0;
    for edge in edges {
        if let Some(extent) = boxes[edge.to.0 as usize] {
            spread = spread.max(extent.half_perimeter());
        }
    }
    spread
}
