//! A cycle, begun at its least point: a loop is reported from the point that was seen first.
ghost use Rattle.std.specs.Prelude.{◌≡◌, ℕ, ◌<◌, ◌≤◌, List, length, drop, take, ◌++◌, slice_index, IfOk};
ghost use Rattle.ice_base_values.specs.Order.{At, StandOnce, IsCycleBelow};

use std::alloc::{AllocError, Global};

/// The same cycle, begun at its least point. Where each point stands once in the cycle, it does so in the answer.
///
/// # Errors
/// Want of memory alone.
pub fn from_least(alloc: Global, cycle: &[usize]) -> Result<Vec<usize>, AllocError>
    requires { 0 < length cycle.now }
    ensures same { IfOk result (λ turned. (points : ℕ) (depends : ℕ → List ℕ)
        → IsCycleBelow points depends cycle.now → IsCycleBelow points depends turned.items) }
    ensures once { IfOk result (λ turned. StandOnce cycle.now → StandOnce turned.items) }
    ensures least { IfOk result (λ turned.
        (i first p : ℕ) → At turned.items 0 first → At turned.items i p → first ≤ p) }
{
    let turned = turned(alloc, cycle, place_of_least(cycle))?;
    Ok(turned)
}

// Where the least of a list stands.
fn place_of_least(points: &[usize]) -> usize
    requires { 0 < length points.now }
    ensures within { result < length points.now }
    ensures least { (i p : ℕ) → At points.now i p → slice_index points.now result ≤ p }
{
    let mut least = 0;
    for i in 1..points.len() {
        if points[i] < points[least] {
            least = i;
        }
    }
    least
}

// The list from a place on, and then what stands before it.
fn turned(alloc: Global, points: &[usize], place: usize) -> Result<Vec<usize>, AllocError>
    requires { place < length points.now }
    ensures { IfOk result (λ v. v.items ≡ drop place points.now ++ take place points.now) }
{
    let mut turned = Vec::from_slice(alloc, &points[place..])?;
    turned.extend_from_slice(&points[..place])?;
    Ok(turned)
}
