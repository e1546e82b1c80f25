//! Closed netlists of texts: a netlist, and the RAMs that close it.
ghost use Rattle.std.specs.Prelude.{◌≡◌, ◌+◌, ◌*◌, List, length, map, IfOk};
ghost use Rattle.ice_blif.specs.Answers.{Gives};
ghost use Rattle.ice_blif.specs.Grammar.{IsWithinLimits};
ghost use Rattle.ice_ram_read.specs.RamClocks.{ram_clocks};
ghost use Rattle.ice_ram_read.specs.RamData.{RamData};
ghost use Rattle.ice_ram_read.specs.RamTexts.{AreFirst};
ghost use Rattle.ice_ram_read.specs.ClosedNetlists.{ClosedNetlistData, ram_of, closed_with, closed_netlist_of};

use crate::clocks::clocks_from;
use crate::cutting::cut;
use crate::ram_text::RamText;
use crate::reading::{MOST_RAMS, rams_of};
use ice_base::{NoMemory, SignalNo};
use ice_blif::{BlifFault, read_blif};
use ice_net::Netlist;
use ice_ram::{RAM_PORTS, Ram};
use std::alloc::Global;
use std::marker::Model;

/// A netlist whose first ports are seen from outside; behind them stand those of its RAMs, which close it. Contracts see it as
/// a record.
#[derive(Drop)]
pub struct ClosedNetlist {
    netlist: Netlist,
    first: usize,
    rams: Vec<Ram>,
}

impl Model for ClosedNetlist {
    ghost use Rattle.ice_ram_read.specs.ClosedNetlists.{ClosedNetlistData};
    ghost use Rattle.ice_ram_read.specs.ClosedViews.{closed_view, IsClosedNetlist};

    ghost Value = { ClosedNetlistData };

    ghost view = { closed_view };

    ghost invariant = { IsClosedNetlist };
}

impl ClosedNetlist {
    /// How many ports are seen from outside.
    pub fn first(&self) -> usize
        ensures { result ≡ self.now.first }
    {
        self.first
    }

    /// How many RAMs close it.
    pub fn rams_count(&self) -> usize
        ensures { result ≡ length self.now.rams }
    {
        self.rams.len()
    }

    /// The signals that the RAMs have as their clocks, of each that of its read clock and that of its write clock: where the clocks of the
    /// netlist are promoted, these are its outer clocks.
    ///
    /// # Errors
    /// Want of memory alone.
    pub fn clocks(&self, alloc: Global) -> Result<Vec<SignalNo>, NoMemory>
        ensures { IfOk result (λ signals. signals.items ≡ ram_clocks self.now) }
    {
        clocks_from(alloc, self.netlist.ports(), self.first, self.rams.len())
    }

    /// The netlist, with the ports of its RAMs. The RAMs are let go.
    pub fn into_netlist(self) -> Netlist
        ensures { result ≡ self.netlist }
    {
        self.netlist
    }

    /// The netlist, and the RAMs.
    pub fn into_parts(self) -> (Netlist, Vec<Ram>)
        ensures netlist { result.0 ≡ self.netlist }
        ensures rams { result.1.items ≡ self.rams }
        ensures ports { length self.netlist.ports ≡ self.first + 74 * length self.rams }
    {
        (self.netlist, self.rams)
    }
}

// RAMs before their first step.
fn started(alloc: Global, texts: Vec<RamText>) -> Result<Vec<Ram>, NoMemory>
    ensures { IfOk result (λ rams. rams.items ≡ map ram_of texts.items) }
{
    let mut rams = Vec::new(alloc);
    for text in texts {
        rams.push(text.into_ram())?;
    }
    Ok(rams)
}

// A netlist with its RAMs. That hidden ports are new is looked at here: RAMs of one line number would share theirs, which is want of memory.
fn with_rams(netlist: Netlist, first: usize, rams: Vec<Ram>) -> Result<ClosedNetlist, NoMemory>
    ensures { IfOk result (λ closed.
        closed ≡ record { netlist = netlist; first = first; rams = rams.items }) }
{
    let Some(behind) = RAM_PORTS.checked_mul(rams.len()) else {
        return Err(NoMemory);
    };
    let Some(all) = first.checked_add(behind) else {
        return Err(NoMemory);
    };
    if netlist.ports().len() != all {
        return Err(NoMemory);
    }
    Ok(ClosedNetlist {
        netlist,
        first,
        rams,
    })
}

// The closed netlist of one, by the first of its RAMs, or all. Were there more, these would have had too many signals: what is cut
// nevertheless is want of memory.
fn closed_with(
    alloc: Global,
    netlist: Netlist,
    texts: Vec<RamText>,
) -> Result<ClosedNetlist, BlifFault>
    ensures { (rams : List RamData) → AreFirst texts.items rams
        → Gives (λ closed. closed) result (closed_with netlist rams) }
{
    let mut netlist = netlist;
    let first = netlist.ports().len();
    cut(alloc, &mut netlist, &texts)?;
    if texts.len() > MOST_RAMS {
        return Err(BlifFault::NoMemory);
    }
    let rams = started(alloc, texts)?;
    let closed = with_rams(netlist, first, rams)?;
    Ok(closed)
}

/// The closed netlist of a text in the Berkeley logic interchange format, or the first fault in it, as `read_blif` finds it. Each RAM gets 74
/// ports behind the text's own, and covers that join these to its signals; their signals are hidden, and named by the number
/// of its line, a blank and the port. That hidden signals of RAMs are too many is found last, at the line of the first RAM whose are.
/// A netlist that no RAM closes is that of the text, within the limits.
pub fn read_closed_netlist(alloc: Global, text: &[u8]) -> Result<ClosedNetlist, BlifFault>
    ensures closed { Gives (λ closed. closed) result (closed_netlist_of text.now) }
    ensures limits { IfOk result (λ closed.
        length closed.rams ≡ 0 → IsWithinLimits text.now closed.netlist) }
{
    let netlist = read_blif(alloc, text)?;
    let texts = rams_of(alloc, &netlist, text)?;
    closed_with(alloc, netlist, texts)
}
