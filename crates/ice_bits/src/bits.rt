//! The configuration bits of all tiles of a chip.
ghost use Rattle.std.specs.Prelude.{◌≡◌, ◌<◌, true, false, Some, length, map, option_map, IfOk, OnOk, OnErr};
ghost use Rattle.ice_base.specs.declared.number.TileAt.{TileAt};
ghost use Rattle.ice_base.specs.declared.bit.BitAt.{BitAt};
ghost use Rattle.ice_chip.specs.Listings.{rows_of};
ghost use Rattle.ice_bits.specs.Configuration.{Configuration, bits_of, rows_at};
ghost use Rattle.ice_bits.specs.Grids.{kind_in, is_of_kind, is_there, blank, IsOf};
ghost use Rattle.ice_bits.specs.Written.{with_bit};
ghost use Rattle.ice_bits.specs.Rewriting.{where_there, Rewrites, with_row, with_rows, with_place, with_places, with_extra, with_content};
ghost use Rattle.ice_bits.specs.ContentViews.{contents_view};
ghost use Rattle.ice_bits.specs.FunctionBits.{bit_place, function_value, with_function};
ghost use Rattle.ice_bits.specs.TilePlaces.{place_in};
ghost use Rattle.ice_bits.specs.TileForms.{kind_of};
ghost use Rattle.ice_chip.specs.Views.{function_view};

use crate::TileBits;
use crate::contents::{Contents, RamWord};
use crate::grids::Grids;
use ice_base::{BitAt, NoMemory, RowNo, TileAt};
use ice_chip::{Chip, Function, Tile, TileKind, same_kind};
use std::alloc::Global;
use std::marker::Model;

/// The configuration bits of a chip, tile by tile, the extra bits, and the words that block RAMs hold before the first step. Contracts see
/// them as a configuration.
#[derive(Drop)]
pub struct Bits {
    // The bits of each tile, in the order of the chip's tiles.
    grids: Grids,
    // The kinds of these tiles in the same order.
    kinds: Vec<TileKind>,
    // The extra bits in order.
    extras: Vec<(u32, u32, u32)>,
    // The words of block RAMs in order.
    contents: Contents,
}

impl Model for Bits {
    ghost use Rattle.ice_bits.specs.Configuration.{Configuration};

    ghost Value = { Configuration };

    ghost use Rattle.ice_bits.specs.Views.{bits_view};

    ghost view = { bits_view };
}

/// Whether a tile is known and of this kind.
pub fn is_of_kind(kind: TileKind, known: Option<TileKind>) -> bool
    ensures { result ≡ is_of_kind kind known }
{
    match known {
        None => false,
        Some(known) => same_kind(known, kind),
    }
}

// The kinds of these tiles.
fn kinds_of(alloc: Global, tiles: &[Tile]) -> Result<Vec<TileKind>, NoMemory>
    ensures { IfOk result (λ kinds. kinds.items ≡ map kind_of tiles.now) }
{
    let mut kinds = Vec::with_capacity(alloc, tiles.len())?;
    for tile in tiles {
        kinds.push(tile.kind)?;
    }
    Ok(kinds)
}

/// The bits of a chip, all 0, no extra bits, and no contents of block RAMs. It fails for want of memory alone.
pub fn blank(alloc: Global, chip: &Chip) -> Result<Bits, NoMemory>
    ensures blank { IfOk result (λ bits. bits ≡ blank chip.now) }
    ensures form { IfOk result (IsOf chip.now) }
{
    let kinds = kinds_of(alloc, chip.tiles())?;
    let grids = Grids::blank(alloc, chip.tiles())?;
    Ok(Bits {
        grids,
        kinds,
        extras: Vec::new(alloc),
        contents: Contents::new(alloc),
    })
}

impl Bits {
    /// An equal copy. It fails for want of memory alone.
    pub fn copy(&self, alloc: Global) -> Result<Bits, NoMemory>
        ensures { IfOk result (λ copy. copy ≡ self.now) }
    {
        Ok(Bits {
            kinds: self.kinds.clone()?,
            extras: self.extras.clone()?,
            contents: self.contents.copy(alloc)?,
            grids: self.grids.copy(alloc)?,
        })
    }

    // Where the bits of a tile stand.
    fn place(&self, tile: TileAt) -> Option<usize>
        ensures { result ≡ place_in tile self.now.tiles }
    {
        self.grids.place(tile)
    }

    /// The bits of a tile, or None exactly where no tile stands there. It takes no memory.
    pub fn tile(&self, tile: TileAt) -> Option<&TileBits>
        ensures { option_map (λ rows. rows.now) result ≡ rows_at self.now tile }
    {
        self.grids.tile(tile)
    }

    /// The kind of a tile, or None exactly where no tile stands there. It takes no memory.
    pub fn kind(&self, tile: TileAt) -> Option<TileKind>
        ensures { result ≡ kind_in self.now tile }
    {
        match self.place(tile) {
            None => None,
            Some(place) => self.kinds.get(place).copied(),
        }
    }

    /// Whether there is a bit at this place of a tile. It takes no memory.
    pub fn has(&self, tile: TileAt, bit: BitAt) -> bool
        ensures { result ≡ is_there self.now tile bit }
    {
        match self.tile(tile) {
            None => false,
            Some(rows) => rows.has(bit),
        }
    }

    /// The bit at a place of a tile; 0 where there is no such place. It takes no memory.
    pub fn get(&self, tile: TileAt, bit: BitAt) -> bool
        ensures { result ≡ bits_of self.now tile bit }
    {
        match self.tile(tile) {
            None => false,
            Some(rows) => rows.get(bit),
        }
    }

    // Writes a bit of the tile at a place in the list, where the tile has such a bit.
    fn write_at(&mut self, tile: TileAt, place: usize, bit: BitAt, value: bool)
        requires { place_in tile self.old.tiles ≡ Some place }
        ensures written { self.new ≡ with_place tile bit value self.old }
        ensures place { place_in tile self.new.tiles ≡ Some place }
    {
        self.grids.write(tile, place, bit, value);
    }

    /// Writes the bit at a place of a tile, which has such a place. It takes no memory.
    pub fn set(&mut self, tile: TileAt, bit: BitAt, value: bool)
        requires { is_there self.old tile bit ≡ true }
        ensures { Rewrites self.old self.new (with_bit tile bit value (bits_of self.old)) }
    {
        if let Some(place) = self.place(tile) {
            self.write_at(tile, place, bit, value);
        }
    }

    // Where the bit of a function with this number stands in a tile.
    fn function_place(&self, tile: TileAt, function: &Function, at: usize) -> Option<BitAt>
        ensures { result ≡ bit_place self.now tile (function_view function.now) at }
    {
        if !is_of_kind(function.kind, self.kind(tile)) {
            return None;
        }
        let bit = function.bits.get(at).copied()?;
        if self.has(tile, bit) { Some(bit) } else { None }
    }

    /// The bit of a function with this number, from 0, in a tile. It is 0 in a tile that isn't of the function's kind, and where the
    /// function has no such bit or the tile no such place. It takes no memory.
    pub fn get_function(&self, tile: TileAt, function: &Function, at: usize) -> bool
        ensures { result ≡ function_value self.now tile (function_view function.now) at }
    {
        match self.function_place(tile, function, at) {
            None => false,
            Some(bit) => self.get(tile, bit),
        }
    }

    /// Writes the bit of a function with this number, from 0, in a tile. Nothing changes in a tile that isn't of the function's kind, and
    /// where the function has no such bit or the tile no such place. It takes no memory.
    pub fn set_function(&mut self, tile: TileAt, function: &Function, at: usize, value: bool)
        ensures { Rewrites self.old self.new
            (with_function self.old tile (function_view function.now) at value) }
    {
        if let Some(bit) = self.function_place(tile, function, at) {
            self.set(tile, bit, value);
        }
    }

    // Writes several bits of the tile at a place in the list, where the tile has such bits.
    #[tactic(auto, using(crate::proofs::TileWrites::next_place, crate::proofs::TileWrites::values_end, crate::proofs::TileWrites::places_end))]
    fn write_all_at(&mut self, tile: TileAt, place: usize, bits: &[BitAt], values: &[bool])
        requires { place_in tile self.old.tiles ≡ Some place }
        ensures { self.new ≡ with_places tile bits.now values.now self.old }
    {
        for (i, bit) in bits.iter().enumerate() {
            let Some(value) = values.get(i) else {
                return;
            };
            self.write_at(tile, place, *bit, *value);
        }
    }

    // Writes several bits of a tile, where the tile has such bits.
    fn write_all(&mut self, tile: TileAt, bits: &[BitAt], values: &[bool])
        ensures { self.new ≡ with_places tile bits.now values.now self.old }
    {
        if let Some(place) = self.place(tile) {
            self.write_all_at(tile, place, bits, values);
        }
    }

    /// Writes the values of a switch row into its group's bits, so far as the group's tile has such places. The row is
    /// one of the chip's. It takes no memory.
    pub fn set_row(&mut self, chip: &Chip, row: RowNo)
        requires { row.0 < length (rows_of chip.now.groups) }
        ensures { Rewrites self.old self.new
            (where_there self.old (with_row chip.now row.0 (bits_of self.old))) }
    {
        let (group, row) = chip.row(row);
        self.write_all(group.tile, &group.bits, &row.values);
    }

    /// Puts other rows in place of those of a tile. Where no tile stands there, nothing changes. It takes no memory.
    pub fn set_tile(&mut self, tile: TileAt, rows: TileBits)
        ensures { self.new ≡ with_rows tile rows self.old }
    {
        self.grids.put(tile, rows);
    }

    /// The extra bits in order.
    pub fn extras(&self) -> &[(u32, u32, u32)]
        ensures { result.now ≡ self.now.extras }
    {
        &self.extras
    }

    /// Adds an extra bit behind the others. After want of memory there is no such extra bit.
    pub fn add_extra(&mut self, extra: (u32, u32, u32)) -> Result<(), NoMemory>
        ensures added { OnOk result (self.new ≡ with_extra extra self.old) }
        ensures refused { OnErr result (self.new ≡ self.old) }
    {
        self.extras.push(extra)?;
        Ok(())
    }

    /// The words that block RAMs hold before the first step, in order, each RAM by its lower tile.
    pub fn contents(&self) -> &[(TileAt, Vec<RamWord>)]
        ensures { contents_view result.now ≡ self.now.contents }
    {
        self.contents.held()
    }

    /// Adds the words of a block RAM behind those of the others. After want of memory there are none of it.
    pub fn add_content(&mut self, tile: TileAt, words: Vec<RamWord>) -> Result<(), NoMemory>
        ensures added { OnOk result (self.new ≡ with_content tile words.items self.old) }
        ensures refused { OnErr result (self.new ≡ self.old) }
    {
        self.contents.push(tile, words)
    }
}
