//! The stretches of a list of sites.
ghost use Rattle.std.specs.Prelude.{◌≡◌, ◌<◌, ◌+◌, [], length, drop, slice_index_or, IfOk};
ghost use Rattle.ice_sites.specs.Site.{is_link};
ghost use Rattle.ice_sites.specs.Stretches.{goes_on, cut};

use crate::Stretch;
use crate::site::is_link;
use ice_base::{NoMemory, TileAt};
use ice_bits_rows::Index;
use std::alloc::Global;

// Whether the next site is linked to this one.
fn goes_on(index: &Index, sites: &[TileAt], k: usize) -> bool
    requires place { k < length sites.now }
    ensures { result ≡ goes_on (is_link index.now.chip.now)
        (slice_index_or sites.now k (record { x = 0; y = 0 })) (drop (k + 1) sites.now) }
{
    match sites.get(k + 1) {
        None => false,
        Some(next) => is_link(index, sites[k], *next),
    }
}

/// The stretches of these sites.
pub fn stretches_in(
    alloc: Global,
    index: &Index,
    sites: &[TileAt],
) -> Result<Vec<Stretch>, NoMemory>
    ensures { IfOk result (λ stretches.
        stretches.items ≡ cut (is_link index.now.chip.now) [] sites.now) }
{
    let mut stretches = Vec::new(alloc);
    let mut open = Vec::new(alloc);
    for k in 0..sites.len() {
        open.push(sites[k])?;
        if !goes_on(index, sites, k) {
            let tiles = std::mem::replace(&mut open, Vec::new(alloc));
            stretches.push(Stretch::of(tiles))?;
        }
    }
    Ok(stretches)
}
