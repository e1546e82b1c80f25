//! The settings of block RAMs.
ghost use Rattle.std.specs.Prelude.{◌≡◌, ◌<◌, ◌++◌, OnOk};
ghost use Rattle.ice_chip_rams.specs.Sites.{sites};
ghost use Rattle.ice_emit_defs.specs.Rams.{mode_settings, ram_settings, site_settings};
ghost use Rattle.ice_emit_settings.specs.Rams.{setup_in, site_gives};
ghost use Rattle.ice_emit_settings.specs.Views.{views};

use crate::making::{digit, push, push_if};
use ice_base::{NoMemory, TileAt};
use ice_chip::{Chip, TileFunction};
use ice_chip_rams::{RamSite, sites};
use ice_emit_bits::Setting;
use ice_ram::{Ram, Setup};
use std::alloc::Global;

// Adds the digits of a mode that are 1, of which the first stands at this place.
fn push_mode(made: &mut Vec<Setting>, tile: TileAt, place: u8, mode: u8) -> Result<(), NoMemory>
    requires { place < 3 }
    ensures { OnOk result
        (views made.new.items ≡ views made.old.items ++ mode_settings tile place mode) }
{
    push_if(made, digit(mode, 0), tile, TileFunction::RamMode(place), 0)?;
    push_if(
        made,
        digit(mode, 1),
        tile,
        TileFunction::RamMode(place + 1),
        0,
    )?;
    Ok(())
}

// Adds what is settled of a block RAM in use: the modes of its ports, and the edges of their clocks.
fn push_ram(made: &mut Vec<Setting>, site: RamSite, setup: Setup) -> Result<(), NoMemory>
    ensures { OnOk result
        (views made.new.items ≡ views made.old.items ++ ram_settings site setup) }
{
    push_mode(made, site.upper, 0, setup.write_mode)?;
    push_mode(made, site.upper, 2, setup.read_mode)?;
    push_if(
        made,
        setup.read_falls,
        site.upper,
        TileFunction::FallingClock,
        0,
    )?;
    push_if(
        made,
        setup.write_falls,
        site.lower,
        TileFunction::FallingClock,
        0,
    )?;
    Ok(())
}

// Adds what is settled of the block RAM that stands at a site, or that the site is switched off.
fn push_site(made: &mut Vec<Setting>, site: RamSite, setup: Option<Setup>) -> Result<(), NoMemory>
    ensures { OnOk result
        (views made.new.items ≡ views made.old.items ++ site_gives site setup) }
{
    match setup {
        None => push(made, site.lower, TileFunction::PowerUp, 0),
        Some(setup) => push_ram(made, site, setup),
    }
}

// What is settled of the block RAM of that number.
fn setup_at(rams: &[Ram], k: usize) -> Option<Setup>
    ensures { result ≡ setup_in rams.now k }
{
    match rams.get(k) {
        None => None,
        Some(ram) => Some(ram.setup()),
    }
}

// Adds the settings of sites, of which each block RAM has the one of its number.
fn push_sites(made: &mut Vec<Setting>, sites: &[RamSite], rams: &[Ram]) -> Result<(), NoMemory>
    ensures { OnOk result (views made.new.items
        ≡ views made.old.items ++ site_settings sites.now rams.now) }
{
    for (k, site) in sites.iter().enumerate() {
        push_site(made, *site, setup_at(rams, k))?;
    }
    Ok(())
}

/// Adds the settings of block RAMs, each of which stands at the chip's site of its number: the digits of their modes that are 1, and
/// which of their clocks fall. All other sites are switched off.
///
/// # Errors
/// Want of memory alone; some of them may be added then.
pub fn push_rams(
    alloc: Global,
    made: &mut Vec<Setting>,
    chip: &Chip,
    rams: &[Ram],
) -> Result<(), NoMemory>
    ensures { OnOk result (views made.new.items
        ≡ views made.old.items ++ site_settings (sites chip.now) rams.now) }
{
    let sites = sites(alloc, chip)?;
    push_sites(made, &sites, rams)
}
