//! From the faults of readers, of pins and places, and of bits, to causes.
ghost use Rattle.ice_flow_frame.specs.Refusals.{IsBlifRefusal, IsPcfRefusal, IsChipRefusal, IsAscRefusal, IsBitsRefusal, IsNetRefusal, IsPinRefusal, IsPlaceRefusal};

use crate::cause::Cause;
use ice_asc::AscFault;
use ice_blif::BlifFault;
use ice_check::NetFault;
use ice_chip::ChipFault;
use ice_decode::DecodeFault;
use ice_pads::PinFault;
use ice_pcf::PcfFault;
use ice_place::PlaceFault;

/// Why there is no netlist: the fault of its text, or want of memory.
pub fn blif_refusal(fault: BlifFault) -> Cause
    ensures { IsBlifRefusal fault result }
{
    match fault {
        BlifFault::NoMemory => Cause::NoMemory,
        fault => Cause::BadBlif(fault),
    }
}

/// Why there are no pin constraints: the fault of their text, or want of memory.
pub fn pcf_refusal(fault: PcfFault) -> Cause
    ensures { IsPcfRefusal fault result }
{
    match fault {
        PcfFault::NoMemory => Cause::NoMemory,
        fault => Cause::BadPcf(fault),
    }
}

/// Why there is no chip: the fault of its text, or want of memory.
pub fn chip_refusal(fault: ChipFault) -> Cause
    ensures { IsChipRefusal fault result }
{
    match fault {
        ChipFault::NoMemory => Cause::NoMemory,
        fault => Cause::BadChip(fault),
    }
}

/// Why there are no bits: the fault of their text, or want of memory.
pub fn asc_refusal(fault: AscFault) -> Cause
    ensures { IsAscRefusal fault result }
{
    match fault {
        AscFault::NoMemory => Cause::NoMemory,
        fault => Cause::BadAsc(fault),
    }
}

/// Why bits have no circuit: their fault, or want of memory.
pub fn bits_refusal(fault: DecodeFault) -> Cause
    ensures { IsBitsRefusal fault result }
{
    match fault {
        DecodeFault::NoMemory => Cause::NoMemory,
        fault => Cause::BadBits(fault),
    }
}

/// Why a netlist has no meaning: its fault, or want of memory.
pub fn net_refusal(fault: NetFault) -> Cause
    ensures { IsNetRefusal fault result }
{
    match fault {
        NetFault::NoMemory => Cause::NoMemory,
        fault => Cause::BadNet(fault),
    }
}

/// Why ports have no pads, or global buffers no globals: the fault, or want of memory.
pub fn pin_refusal(fault: PinFault) -> Cause
    ensures { IsPinRefusal fault result }
{
    match fault {
        PinFault::NoMemory => Cause::NoMemory,
        fault => Cause::BadPin(fault),
    }
}

/// Why clusters have no places: the fault, or want of memory.
pub fn place_refusal(fault: PlaceFault) -> Cause
    ensures { IsPlaceRefusal fault result }
{
    match fault {
        PlaceFault::NoMemory => Cause::NoMemory,
        fault => Cause::Overfull(fault),
    }
}
