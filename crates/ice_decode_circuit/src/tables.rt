//! Tables by the numbers of wires.
ghost use Rattle.std.specs.Prelude.{◌≡◌, ◌<◌, All, IfOk};
ghost use Rattle.ice_decode.specs.Tables.{IsBetween, joined, drivers_of, AreSources};

use ice_base::NoMemory;
use ice_decode::{Driver, Switch};
use std::alloc::Global;

// What drives a wire, with one row into it more that is on.
fn joined(driver: Driver, switch: Switch) -> Driver
    ensures { result ≡ joined driver switch }
{
    match driver {
        Driver::Nothing => Driver::By(switch),
        Driver::By(first) => Driver::Several(first.row, switch.row),
        Driver::Several(first, second) => Driver::Several(first, second),
    }
}

/// What drives each of so many wires, by the rows that are on.
///
/// # Errors
/// Want of memory alone.
#[tactic(auto, using(ice_decode::proofs::DriverTables::drivers_none, ice_decode::proofs::DriverTables::drivers_more, ice_decode::proofs::DriverTables::target_below))]
pub(crate) fn drivers_of(
    alloc: Global,
    wires: u32,
    switches: &[Switch],
) -> Result<Vec<Driver>, NoMemory>
    requires { All (IsBetween wires) switches.now }
    ensures { IfOk result (λ drivers. drivers.items ≡ drivers_of wires switches.now) }
{
    let mut drivers = vec![in alloc; Driver::Nothing; wires as usize]?;
    for switch in switches {
        let wire = switch.target.0 as usize;
        drivers[wire] = joined(drivers[wire], *switch);
    }
    Ok(drivers)
}

/// Whether one of the rows reads each of so many wires.
///
/// # Errors
/// Want of memory alone.
#[tactic(auto, using(ice_decode::proofs::DriverTables::sources_none, ice_decode::proofs::DriverTables::sources_more, ice_decode::proofs::DriverTables::source_below))]
pub(crate) fn sources_of(
    alloc: Global,
    wires: u32,
    switches: &[Switch],
) -> Result<Vec<bool>, NoMemory>
    requires { All (IsBetween wires) switches.now }
    ensures { IfOk result (λ sources. AreSources switches.now sources.items) }
{
    let mut sources = vec![in alloc; false; wires as usize]?;
    for switch in switches {
        sources[switch.source.0 as usize] = true;
    }
    Ok(sources)
}
