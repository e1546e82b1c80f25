//! The cause of each fault of building.
ghost use Rattle.ice_flow_build_frame.specs.Causes.{IsCauseOf};

use ice_flow_build::{BuildFault, arrangement_of};
use ice_flow_frame::{Cause, bits_refusal, pin_refusal, place_refusal};

/// The cause that a fault of building is: the fault, with the arrangement of which it is told, or want of memory.
pub fn cause_of(fault: BuildFault) -> Cause
    ensures { IsCauseOf fault result }
{
    match fault {
        BuildFault::Pins(fault) => pin_refusal(fault),
        BuildFault::Places(fault) => place_refusal(fault),
        BuildFault::Unreachable { layout, net, sink } => Cause::Unreachable {
            arrangement: arrangement_of(layout),
            net,
            sink,
        },
        BuildFault::GaveUp {
            layout,
            nets: _,
            kept,
            logs,
            tallies,
        } => Cause::GaveUp {
            arrangement: arrangement_of(layout),
            logs,
            tallies,
            kept,
        },
        BuildFault::Bits(fault) => bits_refusal(fault),
        BuildFault::NoMemory => Cause::NoMemory,
    }
}
