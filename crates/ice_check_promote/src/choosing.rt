//! Which clocks are promoted.
ghost use Rattle.std.specs.Prelude.{◌≡◌, ◌<◌, ◌-◌, min, length, take, IfOk};
ghost use Rattle.std.specs.List.{filter, range_with_len};
ghost use Rattle.ice_check_promote.specs.Filling.{AreCounts};
ghost use Rattle.ice_net.specs.Limits.{most_signals};
ghost use Rattle.ice_check_promote.specs.Promoted.{is_promotable, promoted_clocks};

use crate::counting::{Counts, counts_of};
use ice_base::NoMemory;
use ice_net::{MOST_SIGNALS, Netlist};
use std::alloc::Global;

// So many flip-flops do without a global network.
const MOST_FLOPS: usize = 15;

// Whether a signal is a clock that may take a global network.
fn is_promotable(netlist: &Netlist, counts: &Counts, signal: u32) -> bool
    requires counts { AreCounts netlist.now counts.now }
    requires signal { signal < length netlist.now.names }
    ensures { result ≡ is_promotable netlist.now signal }
{
    MOST_FLOPS < counts.clocks[signal as usize] && counts.settled[signal as usize] == 0
}

// How many clocks may be promoted: as many as there are free global networks and room for new signals.
fn most_promoted(netlist: &Netlist, free: u32) -> u32
    ensures { result ≡ min free (most_signals - length netlist.now.names) }
{
    free.min(MOST_SIGNALS.saturating_sub(netlist.signals()))
}

// The first clocks that may take a global network, at most so many.
#[tactic(auto, using(crate::proofs::Chosen::none_chosen, crate::proofs::Chosen::all_chosen, crate::proofs::Chosen::then_chosen, crate::proofs::Chosen::then_passed, crate::proofs::Chosen::end_chosen))]
fn first_promotable(
    alloc: Global,
    netlist: &Netlist,
    counts: &Counts,
    most: usize,
) -> Result<Vec<u32>, NoMemory>
    requires { AreCounts netlist.now counts.now }
    ensures { IfOk result (λ clocks. clocks.items ≡ take most
        (filter (is_promotable netlist.now) (range_with_len 0 (length netlist.now.names)))) }
{
    let mut clocks = Vec::new(alloc);
    for signal in 0..netlist.signals() {
        if clocks.len() == most {
            return Ok(clocks);
        }
        if is_promotable(netlist, counts, signal) {
            clocks.push(signal)?;
        }
    }
    Ok(clocks)
}

/// The clocks that are promoted where so many global networks are free, by rising number.
///
/// # Errors
/// Want of memory alone.
pub(crate) fn promoted_clocks(
    alloc: Global,
    netlist: &Netlist,
    free: u32,
) -> Result<Vec<u32>, NoMemory>
    ensures { IfOk result (λ clocks. clocks.items ≡ promoted_clocks netlist.now free) }
{
    let most = most_promoted(netlist, free);
    if most == 0 {
        return Ok(Vec::new(alloc));
    }
    let counts = counts_of(alloc, netlist)?;
    let clocks = first_promotable(alloc, netlist, &counts, most as usize)?;
    Ok(clocks)
}
