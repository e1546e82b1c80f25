//! Outputs of memories that rows of switches read, and the decoding of bits for what follows no memory.
ghost use Rattle.std.specs.Prelude.{◌≡◌, ◌<◌, All, option_map, IfOk, IfErr, OnOk};
ghost use Rattle.ice_bits.specs.Configuration.{bits_of};
ghost use Rattle.ice_decode.specs.Faults.{is_memory_wire};
ghost use Rattle.ice_decode.specs.FirstFaults.{memory_source};
ghost use Rattle.ice_decode.specs.Memories.{memory_wires, memory_source_of, IsTaken, IsRefusedFor};
ghost use Rattle.ice_decode.specs.Refusals.{IsCircuitOf};
ghost use Rattle.ice_decode.specs.Tables.{IsBetween};

use crate::decoding::decode;
use crate::foreign::is_memory_output;
use crate::rows::switches_on;
use ice_base::{NoMemory, WireNo};
use ice_bits::Bits;
use ice_chip::Chip;
use ice_decode::{Circuit, DecodeFault, Switch};
use std::alloc::Global;

// Whether a wire is an output of a memory.
fn is_memory_wire(chip: &Chip, wire: WireNo) -> bool
    requires { wire.0 < chip.now.wires }
    ensures { result ≡ is_memory_wire chip.now wire.0 }
{
    for placed in chip.names(wire) {
        if is_memory_output(placed.name.as_bytes()) {
            return true;
        }
    }
    false
}

// Whether each wire is an output of a memory: the names of a wire are gone through once, however many rows read it.
fn memory_wires(alloc: Global, chip: &Chip) -> Result<Vec<bool>, NoMemory>
    ensures { IfOk result (λ memories. memories.items ≡ memory_wires chip.now) }
{
    let mut memories = Vec::with_capacity(alloc, chip.wires() as usize)?;
    for wire in 0..chip.wires() {
        memories.push(is_memory_wire(chip, WireNo(wire)))?;
    }
    Ok(memories)
}

// Whether a wire is an output of a memory, by the table of all wires.
fn is_noted(chip: &Chip, memories: &[bool], wire: WireNo) -> bool
    requires memories { memories.now ≡ memory_wires chip.now }
    requires wire { wire.0 < chip.now.wires }
    ensures { result ≡ is_memory_wire chip.now wire.0 }
{
    let _chip = chip;
    memories[wire.0 as usize]
}

// The source of the first of these rows whose source is an output of a memory, by the table of all wires.
#[tactic(auto, using(ice_decode::proofs::DriverTables::source_below))]
fn first_noted(chip: &Chip, memories: &[bool], switches: &[Switch]) -> Option<WireNo>
    requires memories { memories.now ≡ memory_wires chip.now }
    requires switches { All (IsBetween chip.now.wires) switches.now }
    ensures { option_map (λ wire. wire.0) result ≡ memory_source_of chip.now switches.now }
{
    for switch in switches {
        if is_noted(chip, memories, switch.source) {
            return Some(switch.source);
        }
    }
    None
}

// The source of the first of these rows whose source is an output of a memory.
fn first_source(alloc: Global, chip: &Chip, switches: &[Switch]) -> Result<Option<WireNo>, NoMemory>
    requires { All (IsBetween chip.now.wires) switches.now }
    ensures { IfOk result (λ source.
        option_map (λ wire. wire.0) source ≡ memory_source_of chip.now switches.now) }
{
    let memories = memory_wires(alloc, chip)?;
    Ok(first_noted(chip, &memories, switches))
}

// The source of the first row that is on whose source is an output of a memory.
fn memory_source(alloc: Global, chip: &Chip, bits: &Bits) -> Result<Option<WireNo>, NoMemory>
    ensures { IfOk result (λ source.
        option_map (λ wire. wire.0) source ≡ memory_source chip.now (bits_of bits.now)) }
{
    chip.is_chip();
    let switches = switches_on(alloc, chip, bits)?;
    first_source(alloc, chip, &switches)
}

/// The circuit in the bits of a chip, where they have no fault; `rams` says whether rows that are on may read what block RAMs in use read
/// out. Where they may not, none of them reads an output of a memory, be it in use or not.
///
/// # Errors
/// Those of `decode`; where it finds none and no output of a memory may be read, the first row that is on whose source is one. Want of
/// memory may come at any time.
pub fn decode_taking(
    alloc: Global,
    chip: &Chip,
    bits: &Bits,
    rams: bool,
) -> Result<Circuit, DecodeFault>
    ensures circuit { IfOk result (λ circuit. IsCircuitOf chip.now bits.now circuit) }
    ensures own_bits { IfOk result (λ circuit. IsCircuitOf chip.now circuit.configuration circuit) }
    ensures taken { OnOk result (IsTaken rams chip.now (bits_of bits.now) bits.now.extras) }
    ensures fault { IfErr result
        (IsRefusedFor rams chip.now (bits_of bits.now) bits.now.extras) }
{
    let circuit = decode(alloc, chip, bits)?;
    if rams {
        return Ok(circuit);
    }
    match memory_source(alloc, chip, bits)? {
        None => Ok(circuit),
        Some(wire) => Err(DecodeFault::ForeignSource { wire }),
    }
}
