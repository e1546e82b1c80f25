//! Whether the runs of a placement stand as they are to.
ghost use Rattle.std.specs.Prelude.{◌≡◌, ℕ, ◌<◌, ◌≤◌, ◌+◌, List, Some, true, length};
ghost use Rattle.ice_base.specs.declared.number.TileAt.{TileAt};
ghost use Rattle.ice_sites.specs.Legal.{tile_at};
ghost use Rattle.ice_anneal.specs.Order.{IsOrder, IsLinked};
ghost use Rattle.ice_anneal.specs.Table.{IsOnce, IsFollowed};

use crate::order::SiteOrder;
use crate::table::{Chunk, chunk_at, chunk_behind};
use ice_base::TileAt;
use indexmap::IndexMap;

// Whether it is found that a chunk, where there is one, stands directly behind a tile.
fn is_before(
    places: &IndexMap<Chunk, usize>,
    order: &SiteOrder,
    place: &[TileAt],
    low: TileAt,
    next: Chunk,
) -> bool
    ensures { result ≡ true → IsFollowed order.now places.now.entries place.now low next }
{
    match places.get(&next) {
        None => true,
        Some(&d) => d < place.len() && order.is_behind(low, place[d]),
    }
}

// Whether it is found that a cluster is its chunk alone, and that the chunk behind it, where there is one, stands directly behind it.
fn is_followed(
    places: &IndexMap<Chunk, usize>,
    own: Option<(u32, u32)>,
    order: &SiteOrder,
    place: &[TileAt],
    c: usize,
) -> bool
    requires { c < length place.now }
    ensures once { result ≡ true → (low : ℕ × ℕ) → own ≡ Some low
        → IsOnce places.now.entries (record { run = low.0; number = low.1 }) c }
    ensures followed { result ≡ true → (low : ℕ × ℕ) → own ≡ Some low
        → IsFollowed order.now places.now.entries place.now (tile_at place.now c)
        (record { run = low.0; number = low.1 + 1 }) }
{
    match own {
        None => true,
        Some(low) => {
            places.get(&chunk_at(low)).copied() == Some(c)
                && is_before(places, order, place, place[c], chunk_behind(low))
        }
    }
}

/// Whether it is found that the chunks of each run stand upwards on linked sites. It isn't where two clusters are one chunk.
pub fn are_linked(
    places: &IndexMap<Chunk, usize>,
    chunks: &[Option<(u32, u32)>],
    order: &SiteOrder,
    place: &[TileAt],
) -> bool
    requires { length chunks.now ≤ length place.now }
    ensures { result ≡ true → (stretches : List (List TileAt)) → IsOrder stretches order.now
        → IsLinked stretches chunks.now place.now }
{
    for c in 0..chunks.len() {
        if !is_followed(places, chunks[c], order, place, c) {
            return false;
        }
    }
    true
}
