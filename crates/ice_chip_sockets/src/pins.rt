//! The pins of block RAMs in order.
ghost use Rattle.std.specs.Prelude.{◌≡◌, ◌++◌, IfOk, OnOk, take};
ghost use Rattle.std.specs.List.{flat_map};
ghost use Rattle.ice_chip_rams.specs.Sites.{ram_pins};

use ice_base::NoMemory;
use ice_chip::Pad;
use ice_chip_rams::{PINS, RamSite, ram_pin};
use std::alloc::Global;

// Adds the pins of a block RAM, in the order of their numbers.
fn add_own(site: RamSite, pins: &mut Vec<Pad>) -> Result<(), NoMemory>
    ensures { OnOk result (pins.new.items ≡ pins.old.items ++ ram_pins site) }
{
    for wire in 0..PINS {
        pins.push(ram_pin(site, wire))?;
    }
    Ok(())
}

/// Adds the pins of block RAMs, those of each in the order of their numbers.
///
/// # Errors
/// Want of memory alone.
pub fn add_pins(sites: &[RamSite], pins: &mut Vec<Pad>) -> Result<(), NoMemory>
    ensures { OnOk result (pins.new.items ≡ pins.old.items ++ flat_map ram_pins sites.now) }
{
    for site in sites {
        add_own(*site, pins)?;
    }
    Ok(())
}

/// The pins of the first so many block RAMs; of all where there are fewer.
///
/// # Errors
/// Want of memory alone.
pub fn first_pins(alloc: Global, sites: &[RamSite], rams: usize) -> Result<Vec<Pad>, NoMemory>
    ensures { IfOk result (λ pins. pins.items ≡ flat_map ram_pins (take rams sites.now)) }
{
    let mut pins = Vec::new(alloc);
    add_pins(&sites[..rams.min(sites.len())], &mut pins)?;
    Ok(pins)
}
