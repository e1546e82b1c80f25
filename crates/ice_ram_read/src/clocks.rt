//! The signals that RAMs have as their clocks.
ghost use Rattle.std.specs.Prelude.{◌≡◌, ◌≤◌, ◌+◌, ◌*◌, ◌++◌, length, IfOk, OnOk};
ghost use Rattle.ice_ram_read.specs.RamClocks.{signal_there, clocks_there, clocks_from};

use ice_base::{NoMemory, SignalNo};
use ice_net::Port;
use ice_ram::RAM_PORTS;
use std::alloc::Global;

// The places of the clocks among the ports of a RAM.
const READ_CLOCK: usize = 70;

const WRITE_CLOCK: usize = 71;

// Adds the signal of the port at a place, where there is one.
fn add_signal(ports: &[Port], place: usize, signals: &mut Vec<SignalNo>) -> Result<(), NoMemory>
    ensures { OnOk result
        (signals.new.items ≡ signals.old.items ++ signal_there ports.now place) }
{
    match ports.get(place) {
        Some(port) => {
            signals.push(port.signal)?;
            Ok(())
        }
        None => Ok(()),
    }
}

// Adds the signals of the clocks of the RAM whose ports begin at a place.
fn add_clocks(ports: &[Port], place: usize, signals: &mut Vec<SignalNo>) -> Result<(), NoMemory>
    requires { place + 74 ≤ length ports.now }
    ensures { OnOk result
        (signals.new.items ≡ signals.old.items ++ clocks_there ports.now place) }
{
    add_signal(ports, place + READ_CLOCK, signals)?;
    add_signal(ports, place + WRITE_CLOCK, signals)?;
    Ok(())
}

/// The signals of the clocks of so many RAMs, the ports of the first of which begin at a place: of each that of its read clock and that
/// of its write clock.
///
/// # Errors
/// Want of memory alone.
#[tactic(auto, using(crate::proofs::RamClockLists::none_yet, crate::proofs::RamClockLists::one_more))]
pub(crate) fn clocks_from(
    alloc: Global,
    ports: &[Port],
    place: usize,
    rams: usize,
) -> Result<Vec<SignalNo>, NoMemory>
    requires { place + 74 * rams ≤ length ports.now }
    ensures { IfOk result (λ signals. signals.items ≡ clocks_from ports.now place rams) }
{
    let mut signals = Vec::new(alloc);
    for ram in 0..rams {
        add_clocks(ports, place + RAM_PORTS * ram, &mut signals)?;
    }
    Ok(signals)
}
