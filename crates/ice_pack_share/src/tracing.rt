//! Where the levels of signals come from, along an order of evaluation.
ghost use Rattle.std.specs.Prelude.{◌≡◌, ◌<◌, false, length, map, replicate, slice_index_or, slice_set, IfOk, OnOk};
ghost use Rattle.ice_net.specs.declared.driver.SignalDriver.TheVariants.{Nothing};
ghost use Rattle.ice_cells.specs.declared.origin.Origin.TheVariants.{Fixed};
ghost use Rattle.ice_cells.specs.Origins.{cell_aliases, cell_origin, origins};
ghost use Rattle.ice_pack_share.specs.Along.{origins_read, made_of};

use crate::inputs::{constant_of, is_alias};
use ice_base::{NoMemory, to_u32};
use ice_cells::{Origin, input_origin};
use ice_check::Sound;
use ice_net::{Cell, SignalDriver, signal_at};
use std::alloc::Global;

// The origin of what cell i drives, by the origins found so far.
#[tactic(auto, using(crate::proofs::OriginSteps::first_read))]
fn cell_origin(found: &[Origin], i: usize, cell: &Cell) -> Origin
    ensures { result ≡ cell_origin i (origins_read found.now (cell_aliases cell.now)) cell.now }
{
    if is_alias(cell.kind) {
        return input_origin(found, signal_at(cell.ins.as_slice(), 0));
    }
    match constant_of(cell.kind) {
        Some(level) => Origin::Fixed(level),
        None => Origin::Made(i),
    }
}

// The origin of what a driver drives, by the origins found so far.
fn made_of(cells: &[Cell], found: &[Origin], driver: SignalDriver) -> Result<Origin, NoMemory>
    ensures { IfOk result (λ origin. origin ≡ made_of cells.now found.now driver) }
{
    match driver {
        SignalDriver::Nothing => Ok(Origin::Fixed(false)),
        SignalDriver::Pad(port) => Ok(Origin::Pad(to_u32(port)?)),
        SignalDriver::Output(i) => if i < cells.len() {
            Ok(cell_origin(found, i, &cells[i]))
        } else {
            Ok(Origin::Fixed(false))
        },
    }
}

// Finds the origin of a signal, by those found so far.
fn settle(
    found: &mut Vec<Origin>,
    cells: &[Cell],
    drivers: &[SignalDriver],
    s: usize,
) -> Result<(), NoMemory>
    requires found { s < length found.old.items }
    requires drivers { s < length drivers.now }
    ensures { OnOk result (found.new.items ≡ slice_set found.old.items s
        (made_of cells.now found.old.items (slice_index_or drivers.now s Nothing))) }
{
    let origin = made_of(cells, found, drivers[s])?;
    found[s] = origin;
    Ok(())
}

// So many signals of constant 0.
fn unknown(alloc: Global, count: usize) -> Result<Vec<Origin>, NoMemory>
    ensures { IfOk result (λ found. found.items ≡ replicate count (Fixed false)) }
{
    Ok(vec![in alloc; Origin::Fixed(false); count]?)
}

/// The origin of each signal, by the signal's number: constants are found, and other names of a signal are looked through.
///
/// # Errors
/// Want of memory alone.
pub fn origins(alloc: Global, sound: &Sound) -> Result<Vec<Origin>, NoMemory>
    ensures { IfOk result (λ found. found.items ≡ origins sound.now) }
{
    let cells = sound.netlist().cells();
    let drivers = sound.drivers();
    let order = sound.signal_order();
    let mut found = unknown(alloc, drivers.len())?;
    for s in order {
        settle(&mut found, cells, drivers, *s)?;
    }
    Ok(found)
}
