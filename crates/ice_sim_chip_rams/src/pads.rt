//! The pads at which a chip with its block RAMs is seen.
ghost use Rattle.std.specs.Prelude.{◌≡◌, IfOk};
ghost use Rattle.ice_sim_chip_rams.specs.ClosedChips.{all_pads};

use ice_base::NoMemory;
use ice_chip::Pad;
use ice_chip_rams::RamSite;
use ice_chip_sockets::add_pins;
use std::alloc::Global;

/// These pads, and behind them the pins of these block RAMs.
///
/// # Errors
/// Want of memory alone.
pub(crate) fn all_pads(
    alloc: Global,
    sites: &[RamSite],
    bonded: &[Pad],
) -> Result<Vec<Pad>, NoMemory>
    ensures { IfOk result (λ pads. pads.items ≡ all_pads sites.now bonded.now) }
{
    let mut pads = Vec::from_slice(alloc, bonded)?;
    add_pins(sites, &mut pads)?;
    Ok(pads)
}
