//! The block RAMs that bits have in use.
ghost use Rattle.std.specs.Prelude.{◌≡◌, ◌++◌, ◌∷◌, [], IfOk, OnOk, filter, if◌then◌else◌};
ghost use Rattle.ice_bits.specs.Configuration.{bits_of};
ghost use Rattle.ice_decode.specs.Rams.{is_on, rams, lower_tile, is_in_use, leads_out, is_given};

use crate::settings::setting;
use ice_base::{NoMemory, TileAt};
use ice_bits::Bits;
use ice_chip::{
    Chip, PlacedName, TileKind, has_ram_wire, is_read_out, power_up_function, ram_number,
};
use ice_chip_rams::{RamSite, site_at, sites};
use std::alloc::Global;

// Whether the block RAM is in use.
fn is_on(chip: &Chip, bits: &Bits, site: RamSite) -> bool
    ensures { result ≡ is_on chip.now (bits_of bits.now) site }
{
    !setting(chip, bits, site.lower, &power_up_function(), 0)
}

// Adds a block RAM behind the others, where it is to be added.
fn add_if(rams: &mut Vec<RamSite>, is_added: bool, site: RamSite) -> Result<(), NoMemory>
    ensures { OnOk result
        (rams.new.items ≡ rams.old.items ++ (if is_added then site ∷ [] else [])) }
{
    if is_added {
        return Ok(rams.push(site)?);
    }
    Ok(())
}

// Those of these block RAMs that are in use.
fn those_on(
    alloc: Global,
    chip: &Chip,
    bits: &Bits,
    all: &[RamSite],
) -> Result<Vec<RamSite>, NoMemory>
    ensures { IfOk result (λ rams.
        rams.items ≡ filter (is_on chip.now (bits_of bits.now)) all.now) }
{
    let mut rams = Vec::new(alloc);
    for site in all {
        add_if(&mut rams, is_on(chip, bits, *site), *site)?;
    }
    Ok(rams)
}

/// The block RAMs that bits have in use, in the order of their lower tiles in the database.
///
/// # Errors
/// Want of memory alone.
pub fn rams(alloc: Global, chip: &Chip, bits: &Bits) -> Result<Vec<RamSite>, NoMemory>
    ensures { IfOk result (λ found. found.items ≡ rams chip.now (bits_of bits.now)) }
{
    let all = sites(alloc, chip)?;
    let rams = those_on(alloc, chip, bits, &all)?;
    Ok(rams)
}

// The lower tile of the block RAM to which a tile of the kind belongs.
fn lower_tile(tile: TileAt, kind: Option<TileKind>) -> Option<TileAt>
    ensures { result ≡ lower_tile tile kind }
{
    match kind {
        None => None,
        Some(TileKind::Io) => None,
        Some(TileKind::Logic) => None,
        Some(TileKind::RamBottom) => Some(tile),
        Some(TileKind::RamTop) => {
            if 0 < tile.y {
                return Some(TileAt {
                    x: tile.x,
                    y: tile.y - 1,
                });
            }
            None
        }
    }
}

// Whether the block RAM to which the tile belongs is in use.
fn is_in_use(chip: &Chip, bits: &Bits, tile: TileAt) -> bool
    ensures { result ≡ is_in_use chip.now (bits_of bits.now) tile }
{
    let Some(lower) = lower_tile(tile, chip.kind_at(tile)) else {
        return false;
    };
    match site_at(chip, lower) {
        Some(site) => is_on(chip, bits, site),
        None => false,
    }
}

// Whether the wire of this number leads out of a tile of the kind.
fn leads_out(kind: Option<TileKind>, wire: u8) -> bool
    ensures { result ≡ leads_out kind wire }
{
    match kind {
        None => false,
        Some(kind) => has_ram_wire(kind, wire) && is_read_out(wire),
    }
}

/// Whether the name is that of an output of a block RAM in use.
pub fn is_given(chip: &Chip, bits: &Bits, placed: &PlacedName) -> bool
    ensures { result ≡ is_given chip.now (bits_of bits.now) placed.now }
{
    match ram_number(placed.name.as_bytes()) {
        Some(wire) => {
            leads_out(chip.kind_at(placed.tile), wire) && is_in_use(chip, bits, placed.tile)
        }
        None => false,
    }
}
