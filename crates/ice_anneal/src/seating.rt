//! Clusters take the tiles that are wanted for them.
ghost use Rattle.std.specs.Prelude.{◌≡◌, IfOk};
ghost use Rattle.std.specs.List.{swap};
ghost use Rattle.std.specs.List.Sorted.{IsPermutation};

use crate::order::SiteOrder;
use ice_base::{NoMemory, TileAt};
use std::alloc::Global;

// Notes that the tile of a site is at a place.
fn note(on: &mut Vec<usize>, site: usize, place: usize) {
    if let Some(own) = on.get_mut(site) {
        *own = place;
    }
}

// For each site the place that has its tile, and a number that is no place where none has it.
fn places_on(alloc: Global, order: &SiteOrder, place: &[TileAt]) -> Result<Vec<usize>, NoMemory> {
    let mut on = vec![in alloc; usize::MAX; order.tiles.len()]?;
    for (c, tile) in place.iter().enumerate() {
        note(&mut on, order.number_of(*tile), c);
    }
    Ok(on)
}

// Exchanges what is at a place with a tile, where this is found at another.
fn take(place: &mut Vec<TileAt>, on: &mut Vec<usize>, order: &SiteOrder, c: usize, tile: TileAt)
    ensures { IsPermutation place.old.items place.new.items }
{
    let d = on.get(order.number_of(tile)).copied().unwrap_or(usize::MAX);
    if c < place.len() && d < place.len() {
        note(on, order.number_of(place[c]), d);
        place.swap(c, d);
    }
}

/// The same tiles in another order: at each place that has one, the tile that is wanted there, where that is one of them and is not
/// wanted twice. Takes time near their number.
pub fn seated(
    alloc: Global,
    order: &SiteOrder,
    place: &[TileAt],
    wanted: &[TileAt],
) -> Result<Vec<TileAt>, NoMemory>
    ensures { IfOk result (λ at. IsPermutation place.now at.items) }
{
    let mut on = places_on(alloc, order, place)?;
    let mut at = Vec::from_slice(alloc, place)?;
    for (c, tile) in wanted.iter().enumerate() {
        take(&mut at, &mut on, order, c, *tile);
    }
    Ok(at)
}
