//! The placement that is kept.
ghost use Rattle.std.specs.Prelude.{◌≡◌, ◌-◌, ◌<◌, ◌≤◌, ◌^◌, List, length, IfOk, take};
ghost use Rattle.std.specs.List.{All};
ghost use Rattle.std.specs.List.Sorted.{IsPermutation};
ghost use Rattle.ice_base.specs.declared.number.TileAt.{TileAt};
ghost use Rattle.ice_sites.specs.Legal.{IsLegal};
ghost use Rattle.ice_place.specs.Place.{AreStretches, chunks_of};
ghost use Rattle.ice_anneal_board.specs.Length.{wire_length, IsNet};
ghost use Rattle.ice_anneal_board.specs.Wiring.{IsWiring};
ghost use Rattle.ice_anneal_board.specs.Board.{IsBoard, Keeps, IsLeast};
ghost use Rattle.ice_anneal.specs.Least.{free_of, IsFull, IsSwapLeast};
ghost use Rattle.ice_anneal.specs.Order.{IsOrder};

use crate::free::{chunks_of, free_of};
use crate::full::full_of;
use crate::linked::are_linked;
use crate::once::nets_once;
use crate::order::{SiteOrder, order_of};
use crate::seating::seated;
use crate::table::{Chunk, places_of};
use ice_anneal_board::{Board, NetNodes, Wiring, wiring_of};
use ice_base::{NoMemory, TileAt, to_u32};
use ice_cells::Clusters;
use ice_place::Placement;
use ice_sites::Sites;
use indexmap::IndexMap;
use std::alloc::Global;

// The wire length of places.
fn total_of(alloc: Global, wiring: &Wiring, place: &[TileAt]) -> Result<u64, NoMemory>
    requires { IsWiring (length place.now) wiring.now }
    ensures { IfOk result (λ n. n ≡ wire_length wiring.now.nets.items place.now) }
{
    let board = Board::new(alloc, wiring, Vec::from_slice(alloc, place)?)?;
    Ok(board.total)
}

// Only descends.
fn lowered(
    alloc: Global,
    wiring: &Wiring,
    free: &[bool],
    count: usize,
    place: &[TileAt],
) -> Result<Board, NoMemory>
    requires wiring { IsWiring (length place.now) wiring.now }
    requires free { length free.now ≡ length place.now }
    requires count { count ≤ length free.now }
    ensures board { IfOk result (λ b. IsBoard wiring.now b) }
    ensures keeps { IfOk result (λ b. Keeps free.now place.now b.place.items) }
    ensures falls { IfOk result (λ b. wire_length wiring.now.nets.items b.place.items
        ≤ wire_length wiring.now.nets.items place.now) }
    ensures least { IfOk result (λ b. IsLeast wiring.now.nets.items free.now b.place.items count) }
{
    let mut board = Board::new(alloc, wiring, Vec::from_slice(alloc, place)?)?;
    board.descend(wiring, free, count);
    Ok(board)
}

// The tiles of a board.
fn tiles_of(board: Board) -> Vec<TileAt>
    ensures { result.items ≡ board.place.items }
{
    let Board { place, .. } = board;
    place
}

// Only descends, of clusters that may be chunks of runs.
fn descended(
    alloc: Global,
    wiring: &Wiring,
    free: &[bool],
    chunks: &[Option<(u32, u32)>],
    place: &[TileAt],
) -> Result<Vec<TileAt>, NoMemory>
    requires wiring { IsWiring (length place.now) wiring.now }
    requires free { free.now ≡ free_of chunks.now (length place.now - length chunks.now) }
    requires count { length chunks.now ≤ length place.now }
    ensures moved { IfOk result (λ at. IsPermutation place.now at.items) }
    ensures legal { IfOk result (λ at. (stretches : List (List TileAt)) → IsFull stretches place.now
        → IsLegal stretches chunks.now (take (length chunks.now) place.now)
        → IsLegal stretches chunks.now (take (length chunks.now) at.items)) }
    ensures falls { IfOk result (λ at.
        wire_length wiring.now.nets.items at.items ≤ wire_length wiring.now.nets.items place.now) }
    ensures least { IfOk result (λ at.
        IsLeast wiring.now.nets.items free.now at.items (length chunks.now)) }
{
    let plain = lowered(alloc, wiring, free, chunks.len(), place)?;
    Ok(tiles_of(plain))
}

// Takes the tiles that are wanted, and descends from there; where that is longer than what was given, or a run stands apart, it
// descends from what was given.
fn best(
    alloc: Global,
    wiring: &Wiring,
    free: &[bool],
    chunks: &[Option<(u32, u32)>],
    places: &IndexMap<Chunk, usize>,
    order: &SiteOrder,
    place: &[TileAt],
    wanted: &[TileAt],
) -> Result<Vec<TileAt>, NoMemory>
    requires wiring { IsWiring (length place.now) wiring.now }
    requires free { free.now ≡ free_of chunks.now (length place.now - length chunks.now) }
    requires count { length chunks.now ≤ length place.now }
    ensures moved { IfOk result (λ at. IsPermutation place.now at.items) }
    ensures legal { IfOk result (λ at.
        (stretches : List (List TileAt)) → IsOrder stretches order.now → IsFull stretches place.now
        → IsLegal stretches chunks.now (take (length chunks.now) place.now)
        → IsLegal stretches chunks.now (take (length chunks.now) at.items)) }
    ensures falls { IfOk result (λ at.
        wire_length wiring.now.nets.items at.items ≤ wire_length wiring.now.nets.items place.now) }
    ensures least { IfOk result (λ at.
        IsLeast wiring.now.nets.items free.now at.items (length chunks.now)) }
{
    let limit = total_of(alloc, wiring, place)?;
    let at = seated(alloc, order, place, wanted)?;
    let made = lowered(alloc, wiring, free, chunks.len(), at.as_slice())?;
    if made.total <= limit && are_linked(places, chunks, order, &made.place) {
        return Ok(tiles_of(made));
    }
    descended(alloc, wiring, free, chunks, place)
}

// The same, of the clusters alone: `place` has their tiles, and behind them those of the free sites.
fn improve_full(
    alloc: Global,
    wiring: &Wiring,
    chunks: &[Option<(u32, u32)>],
    order: &SiteOrder,
    place: &[TileAt],
    wanted: &[TileAt],
) -> Result<Vec<TileAt>, NoMemory>
    requires wiring { IsWiring (length place.now) wiring.now }
    requires nets { All (IsNet (length chunks.now)) wiring.now.nets.items }
    requires count { length chunks.now ≤ length place.now }
    ensures legal { IfOk result (λ at.
        (stretches : List (List TileAt)) → IsOrder stretches order.now → IsFull stretches place.now
        → IsLegal stretches chunks.now (take (length chunks.now) place.now)
        → IsLegal stretches chunks.now at.items) }
    ensures falls { IfOk result (λ at. wire_length wiring.now.nets.items at.items
        ≤ wire_length wiring.now.nets.items (take (length chunks.now) place.now)) }
    ensures least { IfOk result (λ at. (stretches : List (List TileAt)) → IsFull stretches place.now
        → IsSwapLeast (wire_length wiring.now.nets.items) chunks.now stretches at.items) }
{
    let places = places_of(alloc, chunks)?;
    let free = free_of(alloc, &places, chunks, place.len() - chunks.len())?;
    let mut found = best(alloc, wiring, &free, chunks, &places, order, place, wanted)?;
    found.truncate(chunks.len());
    Ok(found)
}

// The same, on sites.
fn improve_some(
    alloc: Global,
    nets: Vec<NetNodes>,
    sites: &Sites,
    chunks: &[Option<(u32, u32)>],
    at: &[TileAt],
    wanted: &[TileAt],
) -> Result<Vec<TileAt>, NoMemory>
    requires sites { AreStretches sites.now }
    requires legal { IsLegal sites.now chunks.now at.now }
    requires nets { All (IsNet (length chunks.now)) nets.items }
    requires few { length nets.items < 2 ^ 32 }
    ensures legal { IfOk result (λ found. IsLegal sites.now chunks.now found.items) }
    ensures falls { IfOk result (λ found.
        wire_length nets.items found.items ≤ wire_length nets.items at.now) }
    ensures least { IfOk result (λ found.
        IsSwapLeast (wire_length nets.items) chunks.now sites.now found.items) }
{
    let stretches = sites.stretches();
    let place = full_of(alloc, stretches, at)?;
    let order = order_of(alloc, stretches)?;
    let wiring = wiring_of(alloc, nets, place.len())?;
    let found = improve_full(alloc, &wiring, chunks, &order, place.as_slice(), wanted)?;
    Ok(found)
}

/// A placement that is legal, no longer than the argument, and that no exchange of two clusters and no move of one to a free
/// site makes shorter, where these are of no run of several chunks; by the wire length of nets. It fails for want of memory
/// alone.
pub(crate) fn improve_nets(
    alloc: Global,
    nets: Vec<NetNodes>,
    placement: &Placement,
    sites: &Sites,
    clusters: &Clusters,
    wanted: &[TileAt],
) -> Result<Placement, NoMemory>
    requires sites { AreStretches sites.now }
    requires legal { IsLegal sites.now (chunks_of clusters.now.list) placement.now }
    requires nets { All (IsNet (length (chunks_of clusters.now.list))) nets.items }
    ensures legal { IfOk result (λ found. IsLegal sites.now (chunks_of clusters.now.list) found) }
    ensures falls { IfOk result (λ found.
        wire_length nets.items found ≤ wire_length nets.items placement.now) }
    ensures least { IfOk result (λ found.
        IsSwapLeast (wire_length nets.items) (chunks_of clusters.now.list) sites.now found) }
{
    let chunks = chunks_of(alloc, clusters.list())?;
    let number = to_u32(nets.len())?;
    let tiles = placement.tiles();
    let once = nets_once(alloc, nets.as_slice())?;
    let found = improve_some(alloc, once, sites, chunks.as_slice(), tiles, wanted)?;
    Ok(Placement::from_vec(found))
}
