//! Which wires have the name of a global.
ghost use Rattle.std.specs.Prelude.{◌≡◌, ◌<◌, false, IfOk};
ghost use Rattle.ice_emit_settings.specs.Buffers.{has_global_name, global_wires};

use ice_base::{NoMemory, WireNo};
use ice_chip::{Chip, is_global_name};
use std::alloc::Global;

// Whether a wire has the name of a global in some tile.
fn has_global_name(chip: &Chip, wire: WireNo) -> bool
    requires { wire.0 < chip.now.wires }
    ensures { result ≡ has_global_name chip.now wire.0 }
{
    for placed in chip.names(wire) {
        if is_global_name(placed.name.as_bytes()) {
            return true;
        }
    }
    false
}

/// Whether each wire has the name of a global in some tile: the names of a wire are gone through once, however many rows leave it.
///
/// # Errors
/// Want of memory.
pub fn global_wires(alloc: Global, chip: &Chip) -> Result<Vec<bool>, NoMemory>
    ensures { IfOk result (λ known. known.items ≡ global_wires chip.now) }
{
    let mut known = Vec::with_capacity(alloc, chip.wires() as usize)?;
    for wire in 0..chip.wires() {
        known.push(has_global_name(chip, WireNo(wire)))?;
    }
    Ok(known)
}

/// Whether a wire may have the name of a global, by the table of all wires.
pub fn may_be_global(chip: &Chip, known: &[bool], wire: WireNo) -> bool
    requires { known.now ≡ global_wires chip.now }
    ensures { result ≡ false → has_global_name chip.now wire.0 ≡ false }
{
    let _chip = chip;
    let place = wire.0 as usize;
    if place >= known.len() {
        return true;
    }
    known[place]
}
