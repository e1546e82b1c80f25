//! The pads, pull-ups and globals of a design.
ghost use Rattle.std.specs.Prelude.{◌≡◌, take, drop, IfOk};
ghost use Rattle.ice_chip.specs.Views.{package_view};
ghost use Rattle.ice_pads.specs.Assign.{pads_with, chosen_by, assign_of};
ghost use Rattle.ice_pads.specs.Answers.{Answers, Lists};
ghost use Rattle.ice_pads.specs.Closings.{with_first};

use crate::choices::{Taken, globals_of};
use crate::choosing::choose_all;
use crate::lines::give_all;
use crate::outer::Outer;
use crate::progress::Progress;
use crate::rams::add_rams;
use crate::tables::Tables;
use crate::{Chosen, Closing, PinFault, Want, wants};
use ice_base::NoMemory;
use ice_bits_rows::Index;
use ice_cells::Design;
use ice_chip::{Chip, Package, Pad};
use ice_net::Netlist;
use ice_pcf::{Constraint, Pcf};
use std::alloc::Global;
use std::marker::Model;

/// The pads and pull-ups of the ports of a design, the globals of its global buffers, and whether these are direct. Contracts
/// see it as a record of four lists.
#[derive(Drop)]
pub struct Pads {
    ports: Vec<Pad>,
    pullups: Vec<bool>,
    globals: Vec<u8>,
    direct: Vec<bool>,
}

impl Model for Pads {
    ghost use Rattle.ice_pads.specs.Assign.{PadsData};

    ghost Value = { PadsData };

    ghost view = { λ pads. record {
      ports = pads.ports.items;
      pullups = pads.pullups.items;
      globals = pads.globals.items;
      direct = pads.direct.items;
    } };
}

impl Pads {
    /// The pad of each port, in port order. Takes no memory, as the other readers.
    pub fn ports(&self) -> &[Pad]
        ensures { result.now ≡ self.now.ports }
    {
        self.ports.as_slice()
    }

    /// Whether the pad of each port is pulled up, in port order.
    pub fn pullups(&self) -> &[bool]
        ensures { result.now ≡ self.now.pullups }
    {
        self.pullups.as_slice()
    }

    /// The global that each global buffer takes, by the buffers' numbers; below 8.
    pub fn globals(&self) -> &[u8]
        ensures { result.now ≡ self.now.globals }
    {
        self.globals.as_slice()
    }

    /// Whether each global buffer is direct, by the buffers' numbers: its global has the level of a port's pad without a way
    /// through the tile that feeds the global.
    pub fn direct(&self) -> &[bool]
        ensures { result.now ≡ self.now.direct }
    {
        self.direct.as_slice()
    }
}

// The pads and pull-ups of what the ports have, with these globals.
fn pads_with(alloc: Global, chosen: &[Chosen], taken: Taken) -> Result<Pads, NoMemory>
    ensures { IfOk result (λ pads. pads ≡ pads_with chosen.now taken) }
{
    let mut ports = Vec::new(alloc);
    let mut pullups = Vec::new(alloc);
    for port in chosen {
        ports.push(port.pad)?;
        pullups.push(port.pullup)?;
    }
    let Taken { numbers, direct } = taken;
    Ok(Pads {
        ports,
        pullups,
        globals: numbers,
        direct,
    })
}

// What the ports that are seen from outside get of a package.
fn chosen_by(
    alloc: Global,
    chip: &Chip,
    bonded: &Package,
    lines: &[Constraint],
    outer: &Outer<'_>,
    wants: &[Want],
) -> Result<Vec<Chosen>, PinFault>
    ensures { Lists result (chosen_by chip.now (package_view bonded.now) lines.now
        (with_first outer.now.first outer.now.netlist.now) wants.now) }
{
    let mut tables = Tables::new(alloc);
    give_all(alloc, chip, &bonded.pins, outer, wants, &mut tables, lines)?;
    let mut progress = Progress::new(alloc);
    choose_all(
        alloc,
        chip,
        bonded.pads.as_slice(),
        outer,
        &tables,
        &mut progress,
        wants,
    )?;
    Ok(progress.chosen)
}

// What the ports that are seen from outside want, and what those of block RAMs want.
fn parted(wants: &[Want], first: usize) -> (&[Want], &[Want])
    ensures seen { result.0.now ≡ take first wants.now }
    ensures hidden { result.1.now ≡ drop first wants.now }
{
    wants.split_at(first.min(wants.len()))
}

/// The pads, pull-ups and globals of a design of the netlist on an indexed chip, or the fault, as [`assign`] answers.
pub fn assign_by(
    alloc: Global,
    index: &Index,
    name: &[u8],
    pcf: &Pcf,
    netlist: &Netlist,
    closing: Closing,
    design: &Design,
) -> Result<Pads, PinFault>
    ensures { Answers result
        (assign_of index.now.chip.now name.now pcf.now netlist.now closing design.now) }
{
    let Some(bonded) = index.chip.package(name) else {
        return Err(PinFault::NoPackage);
    };
    let wants = wants(alloc, design)?;
    let (seen, hidden) = parted(&wants, closing.first);
    let outer = Outer {
        netlist,
        first: closing.first,
    };
    let mut chosen = chosen_by(alloc, index.chip, bonded, pcf.constraints(), &outer, seen)?;
    let taken = globals_of(alloc, index, design, &chosen)?;
    add_rams(
        alloc,
        index.chip,
        netlist,
        closing.rams,
        hidden,
        &mut chosen,
    )?;
    Ok(pads_with(alloc, &chosen, taken)?)
}

/// The pads, pull-ups and globals of a design of the netlist, or the fault. Want of memory may be answered at any time;
/// every other answer is the one of the definition: NoPackage before all, then the first fault of the constraints, then the
/// first port that is seen from outside for which no pad is left, then too few globals, then too few block RAMs, then the first
/// port of a block RAM whose pin lacks a wire.
pub fn assign(
    alloc: Global,
    chip: &Chip,
    name: &[u8],
    pcf: &Pcf,
    netlist: &Netlist,
    closing: Closing,
    design: &Design,
) -> Result<Pads, PinFault>
    ensures { Answers result
        (assign_of chip.now name.now pcf.now netlist.now closing design.now) }
{
    let index = Index::new(alloc, chip)?;
    assign_by(alloc, &index, name, pcf, netlist, closing, design)
}
