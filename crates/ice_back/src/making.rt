//! The netlist of a configured chip in a package.
ghost use Rattle.std.specs.Prelude.{◌≡◌, Bool, List, [], IfOk, OnOk};
ghost use Rattle.ice_base_values.specs.Order.{Has};
ghost use Rattle.ice_chip.specs.Views.{package_view};
ghost use Rattle.ice_bits.specs.Configuration.{bits_of};
ghost use Rattle.ice_net.specs.Meaning as nets;
ghost use Rattle.ice_net.specs.NetlistData.{empty_netlist};
ghost use Rattle.ice_check.specs.Sound.{IsSound};
ghost use Rattle.ice_decode.specs.Cells.{cells};
ghost use Rattle.ice_decode.specs.Meaning.{bits_show};
ghost use Rattle.ice_decode.specs.Refusals.{IsCircuitOf};
ghost use Rattle.ice_back_laws.specs.Back.{back_netlist};

use crate::logic::{add_all_logic, add_fixed, add_pads, add_ports, add_sides, cells_of};
use crate::names::{add_cell_names, add_name, add_pad_names};
use ice_back_laws::{netlist_is_sound, netlist_shows_what_bits_show};
use ice_back_points::ConfiguredChip;
use ice_base::{NoMemory, TileAt};
use ice_chip::{Chip, Package};
use ice_decode::Circuit;
use ice_net::Netlist;
use std::alloc::Global;

// Adds the names of the signals and the ports to a netlist that has none.
fn add_signals(
    alloc: Global,
    configured: &ConfiguredChip<'_>,
    netlist: &mut Netlist,
    all_cells: &[(TileAt, u8)],
) -> Result<(), NoMemory>
    requires cells { all_cells.now ≡ cells configured.now.parts }
    requires empty { netlist.old ≡ empty_netlist }
    ensures { OnOk result (netlist.new
        ≡ record (back_netlist configured.now.parts (bits_of configured.now.configuration) configured.now.configuration.extras configured.now.bonded) {
          cells = [];
        }) }
{
    let pads = configured.pads();
    add_name(netlist, b"zero")?;
    add_name(netlist, b"one")?;
    add_pad_names(alloc, netlist, configured.package())?;
    add_cell_names(alloc, netlist, all_cells)?;
    add_ports(netlist, pads.len() as u32)?;
    Ok(())
}

// Adds the cells to a netlist that has the signals and the ports.
fn add_cells(
    alloc: Global,
    configured: &ConfiguredChip<'_>,
    netlist: &mut Netlist,
    all_cells: &[(TileAt, u8)],
) -> Result<(), NoMemory>
    requires cells { all_cells.now ≡ cells configured.now.parts }
    requires named { netlist.old
        ≡ record (back_netlist configured.now.parts (bits_of configured.now.configuration) configured.now.configuration.extras configured.now.bonded) {
          cells = [];
        } }
    ensures { OnOk result
        (netlist.new ≡ back_netlist configured.now.parts (bits_of configured.now.configuration)
        configured.now.configuration.extras configured.now.bonded) }
{
    let pads = configured.pads();
    add_fixed(alloc, netlist)?;
    add_pads(alloc, configured, netlist, pads)?;
    add_sides(alloc, configured, netlist, pads)?;
    add_all_logic(alloc, configured, netlist, all_cells)?;
    Ok(())
}

// Fills an empty netlist.
fn add_all(
    alloc: Global,
    configured: &ConfiguredChip<'_>,
    netlist: &mut Netlist,
    all_cells: &[(TileAt, u8)],
) -> Result<(), NoMemory>
    requires cells { all_cells.now ≡ cells configured.now.parts }
    requires empty { netlist.old ≡ empty_netlist }
    ensures { OnOk result
        (netlist.new ≡ back_netlist configured.now.parts (bits_of configured.now.configuration)
        configured.now.configuration.extras configured.now.bonded) }
{
    add_signals(alloc, configured, netlist, all_cells)?;
    add_cells(alloc, configured, netlist, all_cells)
}

// The whole netlist.
fn filled(
    alloc: Global,
    configured: &ConfiguredChip<'_>,
    all_cells: &[(TileAt, u8)],
) -> Result<Netlist, NoMemory>
    requires { all_cells.now ≡ cells configured.now.parts }
    ensures { IfOk result (λ netlist.
        netlist ≡ back_netlist configured.now.parts (bits_of configured.now.configuration)
        configured.now.configuration.extras configured.now.bonded) }
{
    let mut netlist = Netlist::new(alloc);
    add_all(alloc, configured, &mut netlist, all_cells).and(Ok(netlist))
}

/// The netlist of a configured chip in a package of it: a port and an SB_IO for each pad of the package in order, pad by pad its registers
/// and its SB_GB, and cell by cell a look-up table, a carry and a flip-flop, where the bits make them. It is sound, and for every list of
/// levels it shows at its ports what the chip shows at the pads. Each wire is passed once.
///
/// # Errors
/// Want of memory alone.
pub fn back(
    alloc: Global,
    chip: &Chip,
    circuit: &Circuit,
    package: &Package,
) -> Result<Netlist, NoMemory>
    requires circuit { IsCircuitOf chip.now circuit.now.configuration circuit.now }
    requires listed { Has chip.now.packages (package_view «package».now) }
    ensures netlist { IfOk result (λ netlist.
        netlist ≡ back_netlist chip.now (bits_of circuit.now.configuration)
        circuit.now.configuration.extras (package_view «package».now)) }
    ensures sound { IfOk result (λ netlist. IsSound netlist) }
    ensures shows { IfOk result (λ netlist. (levels : List (List Bool))
        → nets.shows netlist levels ≡ bits_show chip.now (bits_of circuit.now.configuration)
        circuit.now.configuration.extras «package».now.pads.keys «package».now.pads.keys levels) }
{
    netlist_is_sound();
    netlist_shows_what_bits_show();
    let configured = ConfiguredChip::new(alloc, chip, circuit, package)?;
    let cells = cells_of(alloc, configured.tiles())?;
    filled(alloc, &configured, &cells)
}
