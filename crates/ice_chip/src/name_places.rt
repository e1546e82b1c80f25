//! Where the functions and packages stand in their lists, by their names. Of those of one name the first counts.
ghost use Rattle.std.specs.Prelude.{◌≡◌, [], map, bytes_eq, IfOk, OnOk};
ghost use Rattle.std.specs.Map.{lookup};
ghost use Rattle.ice_chip.specs.Indices.{with_first};
ghost use Rattle.ice_chip.specs.NamePlaces.{by_text, no_places, by_kind, of_kind, put_kind, function_places, package_places};
ghost use Rattle.ice_chip.specs.Views.{function_view, package_view};

use crate::{Function, Package, TileKind};
use ice_base::NoMemory;
use indexmap::IndexMap;
use std::alloc::Global;

/// The places of the functions by their names, those of each kind of tile apart.
#[derive(Drop)]
pub struct FunctionPlaces {
    /// Those of IO tiles.
    pub io: IndexMap<Vec<u8>, usize>,
    /// Those of logic tiles.
    pub logic: IndexMap<Vec<u8>, usize>,
    /// Those of the lower halves of blocks of memory.
    pub ram_bottom: IndexMap<Vec<u8>, usize>,
    /// Those of the upper halves of blocks of memory.
    pub ram_top: IndexMap<Vec<u8>, usize>,
}

// Notes where a name stands, unless it stands before.
fn note_place(
    alloc: Global,
    places: &mut IndexMap<Vec<u8>, usize>,
    name: &[u8],
    place: usize,
) -> Result<(), NoMemory>
    ensures { OnOk result (by_text places.new.entries
        ≡ with_first bytes_eq (by_text places.old.entries) (name.now, place)) }
{
    if places.get(name).is_none() {
        let key = Vec::from_slice(alloc, name)?;
        places.insert(key, place)?;
    }
    Ok(())
}

/// The place of a name, or None exactly where it has none.
#[tactic(auto, using(crate::proofs::NamePlaces::lookup_text))]
pub fn place_of(places: &IndexMap<Vec<u8>, usize>, name: &[u8]) -> Option<usize>
    ensures { result ≡ lookup (bytes_eq name.now) (by_text places.now.entries) }
{
    places.get(name).copied()
}

impl FunctionPlaces {
    // Notes where a function stands, unless one of its kind and name stands before.
    fn note(&mut self, alloc: Global, function: &Function, place: usize) -> Result<(), NoMemory>
        ensures { OnOk result (by_kind self.new
            ≡ put_kind (by_kind self.old) function.now.kind (function.now.name, place)) }
    {
        let name = function.name.as_bytes();
        match function.kind {
            TileKind::Io => note_place(alloc, &mut self.io, name, place),
            TileKind::Logic => note_place(alloc, &mut self.logic, name, place),
            TileKind::RamBottom => note_place(alloc, &mut self.ram_bottom, name, place),
            TileKind::RamTop => note_place(alloc, &mut self.ram_top, name, place),
        }
    }

    // Notes where these functions stand, in order.
    #[tactic(auto, using(crate::proofs::NamePlaces::next_function))]
    fn note_all(&mut self, alloc: Global, functions: &[Function]) -> Result<(), NoMemory>
        ensures { OnOk result (by_kind self.new
            ≡ function_places (by_kind self.old) 0 (map function_view functions.now)) }
    {
        for (place, function) in functions.iter().enumerate() {
            self.note(alloc, function, place)?;
        }
        Ok(())
    }

    /// The places of these functions.
    pub fn new(alloc: Global, functions: &[Function]) -> Result<FunctionPlaces, NoMemory>
        ensures { IfOk result (λ places. by_kind places
            ≡ function_places no_places 0 (map function_view functions.now)) }
    {
        let mut places = FunctionPlaces {
            io: IndexMap::new(alloc),
            logic: IndexMap::new(alloc),
            ram_bottom: IndexMap::new(alloc),
            ram_top: IndexMap::new(alloc),
        };
        places.note_all(alloc, functions).and(Ok(places))
    }

    /// The place of the function of the kind and name, or None exactly where there is none.
    pub fn find(&self, kind: TileKind, name: &[u8]) -> Option<usize>
        ensures { result ≡ lookup (bytes_eq name.now) (of_kind (by_kind self.now) kind) }
    {
        match kind {
            TileKind::Io => place_of(&self.io, name),
            TileKind::Logic => place_of(&self.logic, name),
            TileKind::RamBottom => place_of(&self.ram_bottom, name),
            TileKind::RamTop => place_of(&self.ram_top, name),
        }
    }
}

/// The places of these packages by their names.
#[tactic(auto, using(crate::proofs::NamePlaces::next_package))]
pub fn places_of_packages(
    alloc: Global,
    packages: &[Package],
) -> Result<IndexMap<Vec<u8>, usize>, NoMemory>
    ensures { IfOk result (λ places.
        by_text places.entries ≡ package_places [] 0 (map package_view packages.now)) }
{
    let mut places = IndexMap::new(alloc);
    for (place, package) in packages.iter().enumerate() {
        note_place(alloc, &mut places, package.name.as_bytes(), place)?;
    }
    Ok(places)
}
