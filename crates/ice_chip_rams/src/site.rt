//! The sites of block RAMs.
ghost use Rattle.std.specs.Prelude.{◌≡◌, ◌<◌, ◌++◌, IfOk, OnOk};
ghost use Rattle.ice_chip.specs.RamNames.{pin_at};
ghost use Rattle.ice_chip_rams.specs.Sites.{ram_tile, ram_pin, has_function, has_mode, has_ram_functions, is_known, is_wired, are_wired, is_site, site_from, if_site, site_at, sites};
ghost use Rattle.ice_chip_rams.specs.Tiles.{found};

use crate::RamSite;
use ice_base::{NoMemory, TileAt};
use ice_chip::{
    Chip, Pad, TileKind, falling_clock_function, is_lower, power_up_function, ram_mode_function,
    ram_name, same_kind,
};
use std::alloc::Global;

/// How many pins a block RAM has: the wires of these numbers but for the enables of its clocks, which are no pins of their own.
pub const PINS: u8 = 74;

/// The tile in which the block RAM has the wire of this number.
pub fn ram_tile(site: RamSite, wire: u8) -> TileAt
    ensures { result ≡ ram_tile site wire }
{
    if is_lower(wire) {
        site.lower
    } else {
        site.upper
    }
}

/// The pin of this number as a pad of a tile: pads 0 and 1 are those of IO tiles, and the pins follow.
pub fn pin_at(tile: TileAt, wire: u8) -> Pad
    requires { wire < 76 }
    ensures { result ≡ pin_at tile wire }
{
    Pad {
        tile,
        pio: wire + 2,
    }
}

/// The pin of this number of a block RAM, as a pad.
pub fn ram_pin(site: RamSite, wire: u8) -> Pad
    requires { wire < 76 }
    ensures { result ≡ ram_pin site wire }
{
    pin_at(ram_tile(site, wire), wire)
}

// Whether the kind has a function of the name.
fn has_function(chip: &Chip, kind: TileKind, name: &[u8]) -> bool
    ensures { result ≡ has_function chip.now kind name.now }
{
    chip.function(kind, name).is_some()
}

// Whether there is the digit of the modes of ports at this place.
fn has_mode(chip: &Chip, place: u8) -> bool
    ensures { result ≡ has_mode chip.now place }
{
    has_function(chip, TileKind::RamTop, &ram_mode_function(place))
}

// Whether the functions of block RAMs are there.
fn has_ram_functions(chip: &Chip) -> bool
    ensures { result ≡ has_ram_functions chip.now }
{
    has_function(chip, TileKind::RamBottom, &falling_clock_function())
        && has_function(chip, TileKind::RamBottom, &power_up_function())
        && has_function(chip, TileKind::RamTop, &falling_clock_function())
        && (has_mode(chip, 0) && has_mode(chip, 1) && has_mode(chip, 2) && has_mode(chip, 3))
}

// Whether a tile is known and of this kind.
fn is_known(kind: TileKind, known: Option<TileKind>) -> bool
    ensures { result ≡ is_known kind known }
{
    match known {
        None => false,
        Some(known) => same_kind(known, kind),
    }
}

// Whether a wire has the name of this number in its tile.
fn is_wired(chip: &Chip, site: RamSite, wire: u8) -> bool
    requires { wire < 76 }
    ensures { result ≡ is_wired chip.now site wire }
{
    chip.wire_named(ram_tile(site, wire), ram_name(wire))
        .is_some()
}

// Whether there is a wire for each pin.
fn are_wired(chip: &Chip, site: RamSite) -> bool
    ensures { result ≡ are_wired chip.now site }
{
    for wire in 0..PINS {
        if !is_wired(chip, site, wire) {
            return false;
        }
    }
    true
}

// Whether the tiles hold a block RAM.
fn is_site(chip: &Chip, site: RamSite) -> bool
    ensures { result ≡ is_site chip.now site }
{
    is_known(TileKind::RamBottom, chip.kind_at(site.lower))
        && is_known(TileKind::RamTop, chip.kind_at(site.upper))
        && are_wired(chip, site)
}

// The place and the one right above it.
fn site_from(tile: TileAt) -> Option<RamSite>
    ensures { result ≡ site_from tile }
{
    if tile.y < u16::MAX {
        return Some(RamSite {
            lower: tile,
            upper: TileAt {
                x: tile.x,
                y: tile.y + 1,
            },
        });
    }
    None
}

// The site, where it holds a block RAM.
fn if_site(chip: &Chip, site: RamSite) -> Option<RamSite>
    ensures { result ≡ if_site chip.now site }
{
    if is_site(chip, site) {
        Some(site)
    } else {
        None
    }
}

/// The site whose lower tile stands at the place, or None exactly where the chip has no block RAM there: where the tile is no lower
/// one, no upper one stands right above it, a pin lacks its wire, or the chip lacks a function of block RAMs. It takes no memory.
pub fn site_at(chip: &Chip, tile: TileAt) -> Option<RamSite>
    ensures { result ≡ site_at chip.now tile }
{
    if !has_ram_functions(chip) {
        return None;
    }
    match site_from(tile) {
        Some(site) => if_site(chip, site),
        None => None,
    }
}

// Adds a site behind the others, where there is one.
fn add_site(sites: &mut Vec<RamSite>, site: Option<RamSite>) -> Result<(), NoMemory>
    ensures { OnOk result (sites.new.items ≡ sites.old.items ++ found site) }
{
    match site {
        None => Ok(()),
        Some(site) => Ok(sites.push(site)?),
    }
}

/// The sites of a chip, in the order of their lower tiles in the database.
///
/// # Errors
/// Want of memory alone.
pub fn sites(alloc: Global, chip: &Chip) -> Result<Vec<RamSite>, NoMemory>
    ensures { IfOk result (λ found. found.items ≡ sites chip.now) }
{
    let mut sites = Vec::new(alloc);
    for tile in chip.tiles() {
        add_site(&mut sites, site_at(chip, tile.at))?;
    }
    Ok(sites)
}
