//! What is refused before any run is fitted.
ghost use Rattle.std.specs.Prelude.{◌≡◌, ◌≤◌, length};
ghost use Rattle.std.specs.List.{All};
ghost use Rattle.ice_base.specs.declared.number.TileAt.{TileAt};
ghost use Rattle.std.specs.Prelude.{List};
ghost use Rattle.ice_place.specs.Place.{longest, sites_count, too_long, overfull, refusal};

use crate::PlaceFault;
use ice_sites::Stretch;

/// The sites of a chip: up to this number, since it is at most 256 tiles wide and high.
pub(crate) const MOST_SITES: u32 = 65_536;

// How many sites a stretch has.
fn count(stretch: &Stretch) -> u32
    requires { length stretch.now ≤ MOST_SITES }
    ensures { result ≡ length stretch.now }
{
    stretch.tiles().len() as u32
}

/// How many sites the longest stretch has.
pub fn longest(stretches: &[Stretch]) -> u32
    requires { All (λ (s : List TileAt). length s ≤ MOST_SITES) stretches.now }
    ensures value { result ≡ longest stretches.now }
    ensures bound { result ≤ MOST_SITES }
{
    let mut most = 0;
    for stretch in stretches {
        most = most.max(count(stretch));
    }
    most
}

// How many sites the stretches have.
fn sites_count(stretches: &[Stretch]) -> u32
    requires each { All (λ (s : List TileAt). length s ≤ MOST_SITES) stretches.now }
    requires few { sites_count stretches.now ≤ MOST_SITES }
    ensures { result ≡ sites_count stretches.now }
{
    let mut total = 0;
    for stretch in stretches {
        total += count(stretch);
    }
    total
}

// The first run of more cells than fit anywhere.
fn too_long(runs: &[u32], tallest: u32) -> Option<PlaceFault>
    ensures { result ≡ too_long tallest runs.now }
{
    for length in runs {
        if tallest < *length {
            return Some(PlaceFault::RunTooLong {
                length: *length,
                tallest,
            });
        }
    }
    None
}

// More clusters than sites.
fn overfull(need: u32, have: u32) -> Option<PlaceFault>
    ensures { result ≡ overfull need have }
{
    if have < need {
        return Some(PlaceFault::Overfull { need, have });
    }
    None
}

/// Why runs of these lengths, and so many clusters, get no places, before any run is fitted.
pub fn refused(stretches: &[Stretch], runs: &[u32], need: u32) -> Option<PlaceFault>
    requires each { All (λ (s : List TileAt). length s ≤ MOST_SITES) stretches.now }
    requires few { sites_count stretches.now ≤ MOST_SITES }
    ensures { result ≡ refusal stretches.now runs.now need }
{
    if let Some(fault) = too_long(runs, 8 * longest(stretches)) {
        return Some(fault);
    }
    overfull(need, sites_count(stretches))
}
