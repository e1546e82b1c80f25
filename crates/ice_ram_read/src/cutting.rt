//! RAMs are cut out of a netlist.
ghost use Rattle.std.specs.Prelude.{◌≡◌, ◌<◌, OnOk, IfErr};
ghost use Rattle.ice_blif.specs.declared.fault.BlifFault.TheVariants.{NoMemory as out_of_memory};
ghost use Rattle.ice_blif.specs.Answers.{Gives};
ghost use Rattle.ice_blif.specs.FewSignals.{few_signals};
ghost use Rattle.ice_ram_read.specs.ClosedNetlists.{with_cover, with_ram_port, with_ram, cut_says};

use crate::apart::port_cover;
use crate::ports::{port_way, port_word};
use crate::ram_text::RamText;
use ice_blif::{BlifFault, hidden_signal};
use ice_net::{Cell, MOST_SIGNALS, Netlist};
use ice_ram::RAM_PORTS;
use std::alloc::Global;

// Adds a cover, where there is one. What would not be well formed is want of memory: no text says it.
fn add_cover(netlist: &mut Netlist, cover: Option<Cell>) -> Result<(), BlifFault>
    ensures netlist { OnOk result (netlist.new ≡ with_cover netlist.old cover) }
    ensures memory { IfErr result (λ e. e ≡ out_of_memory) }
{
    let Some(cover) = cover else {
        return Ok(());
    };
    if !netlist.has_room_for_cell() || !cover.is_formed(netlist.signals()) {
        return Err(BlifFault::NoMemory);
    }
    netlist.cell(cover)?;
    Ok(())
}

// Adds port k of a RAM.
fn add_port(alloc: Global, netlist: &mut Netlist, ram: &RamText, k: usize) -> Result<(), BlifFault>
    requires { k < 74 }
    ensures netlist { OnOk result (netlist.new ≡ with_ram_port netlist.old ram.now k) }
    ensures memory { IfErr result (λ e. e ≡ out_of_memory) }
{
    let word = port_word(alloc, k)?;
    let hidden = hidden_signal(alloc, netlist, ram.line(), &word)?;
    let cover = port_cover(alloc, netlist, ram, k, hidden)?;
    netlist.port(hidden, port_way(k))?;
    add_cover(netlist, cover)
}

// Adds the ports of a RAM.
fn add_ports(alloc: Global, netlist: &mut Netlist, ram: &RamText) -> Result<(), BlifFault>
    ensures netlist { OnOk result (netlist.new ≡ with_ram netlist.old ram.now) }
    ensures memory { IfErr result (λ e. e ≡ out_of_memory) }
{
    for k in 0..RAM_PORTS {
        add_port(alloc, netlist, ram, k)?;
    }
    Ok(())
}

// Adds the ports of a RAM, and finds that there are too many signals.
fn add(alloc: Global, netlist: &mut Netlist, ram: &RamText) -> Result<(), BlifFault>
    ensures { Gives (λ _. netlist.new) result
        (few_signals ram.now.line (with_ram netlist.old ram.now)) }
{
    add_ports(alloc, netlist, ram)?;
    if netlist.signals() > MOST_SIGNALS {
        return Err(BlifFault::TooMany {
            line: ram.line(),
            limit: MOST_SIGNALS,
        });
    }
    Ok(())
}

/// Adds the ports of RAMs behind all others.
pub(crate) fn cut(alloc: Global, netlist: &mut Netlist, rams: &[RamText]) -> Result<(), BlifFault>
    ensures { Gives (λ _. netlist.new) result (cut_says netlist.old rams.now) }
{
    for ram in rams {
        add(alloc, netlist, ram)?;
    }
    Ok(())
}
