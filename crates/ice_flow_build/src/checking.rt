//! Whether bits have a loop.
ghost use Rattle.std.specs.Prelude.{◌⊎◌, IfErr, OnOk};
ghost use Rattle.ice_bits.specs.Configuration.{bits_of};
ghost use Rattle.ice_decode.specs.Faults.{HasNoLoop};
ghost use Rattle.ice_emit_meaning_laws.specs.Feeds.{IsRingless};
ghost use Rattle.ice_flow_build.specs.Stages.{IsBitsFault};

use crate::answer::BuildFault;
use ice_bits::Bits;
use ice_chip::Chip;
use ice_decode_circuit::decode;
use ice_emit_meaning_laws::feeds_no_global;
use std::alloc::Global;

// Asks the decoder.
fn check_decoded(alloc: Global, chip: &Chip, bits: &Bits) -> Result<(), BuildFault>
    ensures loopless { OnOk result (HasNoLoop chip.now (bits_of bits.now) bits.now.extras) }
    ensures fault { IfErr result (IsBitsFault chip.now bits.now) }
{
    let _circuit = decode(alloc, chip, bits)?;
    Ok(())
}

/// Asks the decoder whether written bits have a circuit, if a global of the chip is fed by a global. Otherwise they have no loop anyway.
///
/// # Errors
/// The decoder's fault; want of memory.
pub fn check_loops(alloc: Global, chip: &Chip, bits: &Bits) -> Result<(), BuildFault>
    ensures loopless { OnOk result
        (IsRingless chip.now ⊎ HasNoLoop chip.now (bits_of bits.now) bits.now.extras) }
    ensures fault { IfErr result (IsBitsFault chip.now bits.now) }
{
    if feeds_no_global(chip) {
        return Ok(());
    }
    check_decoded(alloc, chip, bits)
}
