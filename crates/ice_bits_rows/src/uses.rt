//! What usable rows may do with each wire, by its names, which are looked at once.
ghost use Rattle.std.specs.Prelude.{◌≡◌, ◌<◌, IfOk};
ghost use Rattle.ice_bits_rows.specs.Uses.{is_source, use_at, AreUses};
ghost use Rattle.ice_bits_rows.specs.WireNames.{may_enter};

use crate::names::{has_closed_name, has_pin_names};
use ice_base::{NoMemory, WireNo};
use ice_chip::Chip;
use std::alloc::Global;

/// What usable rows may do with a wire.
#[derive(Clone, Copy)]
pub struct WireUse {
    /// Whether one may come from the wire: it has no name of a memory that is no pin, and a route may leave it.
    pub is_source: bool,
    /// Whether one may lead into the wire: a route may enter it.
    pub is_target: bool,
}

// What usable rows may do with the wire. Names of memories that are no pins close it.
fn use_of(chip: &Chip, wire: WireNo) -> WireUse
    requires { wire.0 < chip.now.wires }
    ensures { result ≡ use_at chip.now wire.0 }
{
    if has_closed_name(chip, wire) {
        return WireUse {
            is_source: false,
            is_target: false,
        };
    }
    let (input, output) = has_pin_names(chip, wire);
    WireUse {
        is_source: !input,
        is_target: !output,
    }
}

/// For each wire, by number, what usable rows may do with it.
///
/// # Errors
/// Want of memory alone.
#[tactic(auto, using(crate::proofs::WireUses::no_use, crate::proofs::WireUses::next_use))]
pub fn uses_of(alloc: Global, chip: &Chip) -> Result<Vec<WireUse>, NoMemory>
    ensures { IfOk result (λ uses. AreUses chip.now uses.items) }
{
    let wires = chip.wires();
    let mut uses = Vec::with_capacity(alloc, wires as usize)?;
    for wire in 0..wires {
        uses.push(use_of(chip, WireNo(wire)))?;
    }
    Ok(uses)
}

/// Whether a usable row may come from the wire, by what was noted of all.
#[tactic(auto, using(crate::proofs::WireUses::source_at, crate::proofs::WireUses::use_within))]
pub fn is_source(chip: &Chip, uses: &[WireUse], wire: WireNo) -> bool
    requires uses { AreUses chip.now uses.now }
    requires wire { wire.0 < chip.now.wires }
    ensures { result ≡ is_source chip.now wire.0 }
{
    let _chip = chip;
    uses[wire.0 as usize].is_source
}

/// Whether a usable row may lead into the wire, by what was noted of all.
#[tactic(auto, using(crate::proofs::WireUses::target_at, crate::proofs::WireUses::use_within))]
pub fn is_target(chip: &Chip, uses: &[WireUse], wire: WireNo) -> bool
    requires uses { AreUses chip.now uses.now }
    requires wire { wire.0 < chip.now.wires }
    ensures { result ≡ may_enter chip.now wire.0 }
{
    let _chip = chip;
    uses[wire.0 as usize].is_target
}
