//! Which clusters may be exchanged.
ghost use Rattle.std.specs.Prelude.{◌≡◌, ℕ, Option, Some, List, IfOk};
ghost use Rattle.std.specs.List.{list_any};
ghost use Rattle.ice_sites.specs.Legal.{is_next};
ghost use Rattle.ice_place.specs.Place.{chunks_of};
ghost use Rattle.ice_anneal.specs.Least.{is_rigid, free_of};
ghost use Rattle.ice_anneal.specs.Table.{is_chunk, Knows};

use crate::table::{Chunk, chunk_at, chunk_behind};
use ice_base::NoMemory;
use ice_cells::Cluster;
use indexmap::IndexMap;
use std::alloc::Global;

/// Whether the second is the chunk behind the first one of the same run.
pub fn is_next(low: Option<(u32, u32)>, high: Option<(u32, u32)>) -> bool
    ensures { result ≡ is_next low high }
{
    match low {
        None => false,
        Some(low) => match high {
            None => false,
            Some(high) => low.0 == high.0 && u64::from(low.1) + 1 == u64::from(high.1),
        },
    }
}

/// Of which run each cluster is a chunk, and which.
pub fn chunks_of(alloc: Global, clusters: &[Cluster]) -> Result<Vec<Option<(u32, u32)>>, NoMemory>
    ensures { IfOk result (λ chunks. chunks.items ≡ chunks_of clusters.now) }
{
    let mut chunks = Vec::new(alloc);
    for cluster in clusters {
        chunks.push(cluster.run)?;
    }
    Ok(chunks)
}

// Whether a cluster is this chunk.
fn is_there(places: &IndexMap<Chunk, usize>, chunk: Chunk) -> bool
    ensures { (chunks : List (Option (ℕ × ℕ))) → Knows chunks places.now.entries
        → result ≡ list_any (is_chunk chunk) chunks }
{
    places.contains_key(&chunk)
}

// Whether a cluster is the chunk before this one of a run.
fn is_before_there(places: &IndexMap<Chunk, usize>, own: (u32, u32)) -> bool
    ensures { (chunks : List (Option (ℕ × ℕ))) → Knows chunks places.now.entries
        → result ≡ list_any (λ other. is_next other (Some own)) chunks }
{
    if own.1 == 0 {
        return false;
    }
    is_there(places, chunk_at((own.0, own.1 - 1)))
}

// Whether a run has another chunk directly before or behind this one.
fn is_joined(places: &IndexMap<Chunk, usize>, own: (u32, u32)) -> bool
    ensures { (chunks : List (Option (ℕ × ℕ))) → Knows chunks places.now.entries
        → result ≡ is_rigid chunks (Some own) }
{
    let is_behind = is_there(places, chunk_behind(own));
    is_behind | is_before_there(places, own)
}

// Whether a cluster is of a run of several chunks.
fn is_rigid(places: &IndexMap<Chunk, usize>, own: Option<(u32, u32)>) -> bool
    ensures { (chunks : List (Option (ℕ × ℕ))) → Knows chunks places.now.entries
        → result ≡ is_rigid chunks own }
{
    match own {
        None => false,
        Some(own) => is_joined(places, own),
    }
}

/// Which of these may be exchanged, and so many free sites, which all may.
pub fn free_of(
    alloc: Global,
    places: &IndexMap<Chunk, usize>,
    chunks: &[Option<(u32, u32)>],
    extra: usize,
) -> Result<Vec<bool>, NoMemory>
    requires { Knows chunks.now places.now.entries }
    ensures { IfOk result (λ free. free.items ≡ free_of chunks.now extra) }
{
    let mut free = Vec::with_capacity(alloc, chunks.len())?;
    for &own in chunks {
        free.push(!is_rigid(places, own))?;
    }
    for k in 0..extra {
        free.push(true)?;
    }
    Ok(free)
}
