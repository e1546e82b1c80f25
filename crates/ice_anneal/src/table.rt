//! Which cluster is which chunk of a run.
ghost use Rattle.std.specs.Prelude.{◌≡◌, ◌+◌, ◌||◌, is_some, IfOk, OnOk};
ghost use Rattle.std.specs.Map.{lookup};
ghost use Rattle.ice_anneal.specs.declared.table.Chunk.{Chunk};
ghost use Rattle.ice_anneal.specs.Table.{same_chunk, is_chunk, Knows};

use ice_base::NoMemory;
use indexmap::IndexMap;
use std::alloc::Global;

/// A chunk of a run.
#[derive(Clone, Copy, PartialEq, Eq, Hash)]
pub struct Chunk {
    /// The run.
    pub run: u32,
    /// The number of the chunk in its run, or the one behind the last.
    pub number: u64,
}

/// The chunk of these numbers.
pub fn chunk_at(own: (u32, u32)) -> Chunk
    ensures { result ≡ record { run = own.0; number = own.1 } }
{
    Chunk {
        run: own.0,
        number: u64::from(own.1),
    }
}

/// The chunk behind the one of these numbers.
pub fn chunk_behind(own: (u32, u32)) -> Chunk
    ensures { result ≡ record { run = own.0; number = own.1 + 1 } }
{
    Chunk {
        run: own.0,
        number: u64::from(own.1) + 1,
    }
}

// Notes the place of a chunk.
fn note(
    places: &mut IndexMap<Chunk, usize>,
    own: Option<(u32, u32)>,
    place: usize,
) -> Result<(), NoMemory>
    ensures { OnOk result ((chunk : Chunk) → is_some (lookup (same_chunk chunk) places.new.entries)
        ≡ (is_some (lookup (same_chunk chunk) places.old.entries) || is_chunk chunk own)) }
{
    if let Some(own) = own {
        places.insert(chunk_at(own), place)?;
    }
    Ok(())
}

/// The place of each chunk among these; of one that stands there more than once, the last place.
pub fn places_of(
    alloc: Global,
    chunks: &[Option<(u32, u32)>],
) -> Result<IndexMap<Chunk, usize>, NoMemory>
    ensures { IfOk result (λ places. Knows chunks.now places.entries) }
{
    let mut places = IndexMap::with_capacity(alloc, chunks.len())?;
    for c in 0..chunks.len() {
        note(&mut places, chunks[c], c)?;
    }
    Ok(places)
}
