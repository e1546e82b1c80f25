//! The text of the netlist of a configured chip.
ghost use Rattle.std.specs.Prelude.{◌≡◌, IfOk};
ghost use Rattle.ice_base_values.specs.Order.{Has};
ghost use Rattle.ice_chip.specs.Views.{package_view};
ghost use Rattle.ice_bits.specs.Configuration.{bits_of};
ghost use Rattle.ice_check.specs.Sound.{IsSound};
ghost use Rattle.ice_decode.specs.Refusals.{IsCircuitOf};
ghost use Rattle.ice_chip_read_laws.specs.Pins.{HasWords};
ghost use Rattle.ice_back_laws.specs.Back.{back_netlist};
ghost use Rattle.ice_blif_laws.specs.SameNames.{SaysTheSame};
ghost use Rattle.ice_blif_write.specs.RoundTrip.{IsWritable};
ghost use Rattle.ice_blif_write.specs.Text.{blif_text};
ghost use Rattle.ice_flow_back_cmd.specs.Headline.{SaysBits};

use ice_back::back;
use ice_base::NoMemory;
use ice_blif_laws::written_shows_the_same;
use ice_blif_write::write_blif;
use ice_chip::{Chip, Package};
use ice_decode::Circuit;
use ice_net::Netlist;
use std::alloc::Global;

// The text of a netlist. Where the netlist is sound and can be written, the text says one that shows the same.
fn text_of(alloc: Global, netlist: &Netlist) -> Result<Vec<u8>, NoMemory>
    ensures text { IfOk result (λ text. text.items ≡ blif_text netlist.now) }
    ensures says { IfOk result (λ text. IsSound netlist.now → IsWritable netlist.now
        → SaysTheSame (blif_text netlist.now) netlist.now) }
{
    written_shows_the_same();
    netlist.is_formed();
    let mut text = Vec::new(alloc);
    write_blif(netlist, &mut text)?;
    Ok(text)
}

/// The text of the netlist of a configured chip in a package of it, the pins of which are named by words.
///
/// # Errors
/// Want of memory alone.
pub(crate) fn back_text(
    alloc: Global,
    chip: &Chip,
    circuit: &Circuit,
    bonded: &Package,
) -> Result<Vec<u8>, NoMemory>
    requires circuit { IsCircuitOf chip.now circuit.now.configuration circuit.now }
    requires listed { Has chip.now.packages (package_view bonded.now) }
    requires words { HasWords (package_view bonded.now) }
    ensures text { IfOk result (λ text.
        text.items ≡ blif_text (back_netlist chip.now (bits_of circuit.now.configuration)
        circuit.now.configuration.extras (package_view bonded.now))) }
    ensures says { IfOk result (λ text.
        SaysBits chip.now circuit.now.configuration (package_view bonded.now) text.items) }
{
    chip.is_chip();
    let netlist = back(alloc, chip, circuit, bonded)?;
    let text = text_of(alloc, &netlist)?;
    Ok(text)
}
