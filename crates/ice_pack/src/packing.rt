//! Netlists are packed.
ghost use Rattle.std.specs.Prelude.{◌≡◌, ◌+◌, All, length, IfOk};
ghost use Rattle.ice_check.specs.Sound.{AreBuffers};
ghost use Rattle.ice_cells.specs.Homes.{carriers_of, homes, openers};
ghost use Rattle.ice_cells.specs.Origins.{origins};
ghost use Rattle.ice_cells.specs.Uses.{bare_outputs};
ghost use Rattle.ice_cells.specs.Packed.{one_if, needs_zero, plan_by, plan_of, pads_from, globals_of, unread_by, with_reads, packed};
ghost use Rattle.ice_pack_sinks.specs.Plans.{plan};
ghost use Rattle.ice_pack.specs.Marks.{HasPort};
ghost use Rattle.ice_pack.specs.Parts.{plan_with};

use crate::globals::globals_of;
use crate::pads::pads_from;
use crate::reads::{marked_pads, marks_of};
use ice_base::{NoMemory, to_u32};
use ice_cells::{Design, DesignPad, Items, Origin, Root};
use ice_check::Sound;
use ice_net::{Cell, Netlist, Port};
use ice_pack_share::{Facts, Homes, bare_outputs, facts_of, homes_of, origins};
use ice_pack_sinks::{Slices, carries_from, cells_by, needs_zero, roots_from};
use std::alloc::Global;

// The pads of all ports, and what each global buffer reads.
fn pads_and_globals(
    alloc: Global,
    slices: &Slices<'_>,
    netlist: &Netlist,
    buffers: &[Option<usize>],
) -> Result<(Vec<DesignPad>, Vec<Option<Root>>), NoMemory>
    requires { AreBuffers netlist.now buffers.now }
    ensures pads { IfOk result (λ r.
        r.0.items ≡ pads_from (plan slices.now) netlist.now.cells 0 netlist.now.ports) }
    ensures globals { IfOk result (λ r.
        r.1.items ≡ globals_of (plan slices.now) netlist.now.cells) }
{
    let pads = pads_from(alloc, slices, netlist, buffers)?;
    let globals = globals_of(alloc, slices, netlist.cells())?;
    Ok((pads, globals))
}

// The design by a plan, before it is known which pads are read.
fn unread_by(
    alloc: Global,
    slices: &Slices<'_>,
    netlist: &Netlist,
    buffers: &[Option<usize>],
    bare: &[Port],
    places: &Homes,
) -> Result<Design, NoMemory>
    requires buffers { AreBuffers netlist.now buffers.now }
    requires bare { bare.now ≡ bare_outputs netlist.now }
    requires homes { places.now.homes ≡ homes (plan slices.now).facts }
    requires openers { places.now.openers ≡ openers (plan slices.now).facts }
    ensures { IfOk result (λ design. design ≡ unread_by netlist.now (plan slices.now)) }
{
    let (pads, globals) = pads_and_globals(alloc, slices, netlist, buffers)?;
    let made = cells_by(
        alloc,
        slices,
        netlist.cells(),
        bare,
        places.openers.as_slice(),
    )?;
    let carries = carries_from(alloc, slices, places.homes.as_slice(), netlist.cells())?;
    Ok(Design {
        cells: Items::from_vec(made),
        runs: Items::from_vec(Vec::new(alloc)),
        pads: Items::from_vec(pads),
        globals: Items::from_vec(globals),
        carries: Items::from_vec(carries),
    })
}

// The number behind this one where a logic cell has this, and this one where none has it.
fn next_if(number: u32, taken: bool) -> Result<u32, NoMemory>
    ensures { IfOk result (λ next. next ≡ number + one_if taken) }
{
    let taken = if taken { 1 } else { 0 };
    let next = to_u32(number as usize + taken)?;
    Ok(next)
}

// What is known of a netlist, as one.
fn slices_of<'a>(
    origins: &'a [Origin],
    facts: &'a Facts,
    carriers: &'a [Option<usize>],
    roots: &'a [Option<Root>],
    zero: u32,
    one: u32,
) -> Slices<'a>
    ensures { plan result ≡ plan_with origins.now facts.now carriers.now roots.now zero one }
{
    Slices {
        origins,
        parts: facts.parts(),
        takers: facts.takers(),
        luts: facts.luts(),
        carriers,
        roots,
        zero,
        one,
    }
}

// The numbers of the logic cells of the constants, which stand behind those that are opened.
fn constants_of(
    origins: &[Origin],
    cells: &[Cell],
    openers: &[usize],
) -> Result<(u32, u32), NoMemory>
    ensures zero { IfOk result (λ r. r.0 ≡ length openers.now) }
    ensures one { IfOk result (λ r.
        r.1 ≡ length openers.now + one_if (needs_zero origins.now cells.now)) }
{
    let zero = to_u32(openers.len())?;
    let one = next_if(zero, needs_zero(origins, cells))?;
    Ok((zero, one))
}

// The design of a netlist by what is known of it, before it is known which pads are read.
fn design_by(
    alloc: Global,
    sound: &Sound,
    origins: &[Origin],
    bare: &[Port],
    facts: &Facts,
    places: &Homes,
) -> Result<Design, NoMemory>
    requires bare { bare.now ≡ bare_outputs sound.now }
    requires carriers { places.now.carriers ≡ carriers_of facts.now }
    requires homes { places.now.homes ≡ homes facts.now }
    requires openers { places.now.openers ≡ openers facts.now }
    ensures { IfOk result (λ design.
        design ≡ unread_by sound.now (plan_by sound.now.cells origins.now facts.now)) }
{
    let netlist = sound.netlist();
    let cells = netlist.cells();
    let roots = roots_from(alloc, origins, places.homes.as_slice(), cells)?;
    let (zero, one) = constants_of(origins, cells, places.openers.as_slice())?;
    let slices = slices_of(
        origins,
        facts,
        places.carriers.as_slice(),
        &roots,
        zero,
        one,
    );
    let design = unread_by(alloc, &slices, netlist, sound.buffers(), bare, places)?;
    Ok(design)
}

// The same, where it is not known yet which logic cell each cell goes to.
fn placed(
    alloc: Global,
    sound: &Sound,
    origins: &[Origin],
    bare: &[Port],
    facts: &Facts,
) -> Result<Design, NoMemory>
    requires { bare.now ≡ bare_outputs sound.now }
    ensures { IfOk result (λ design.
        design ≡ unread_by sound.now (plan_by sound.now.cells origins.now facts.now)) }
{
    let places = homes_of(alloc, facts)?;
    let design = design_by(alloc, sound, origins, bare, facts, &places)?;
    Ok(design)
}

// The design of a netlist, before it is known which pads are read.
fn unread(alloc: Global, sound: &Sound) -> Result<Design, NoMemory>
    ensures { IfOk result (λ design. design ≡ unread_by sound.now (plan_of sound.now)) }
{
    let traced = origins(alloc, sound)?;
    let origins = traced.as_slice();
    let ports = bare_outputs(alloc, sound)?;
    let bare = ports.as_slice();
    let facts = facts_of(alloc, sound.netlist().cells(), origins, bare)?;
    let design = placed(alloc, sound, origins, bare, &facts)?;
    Ok(design)
}

// The design with what is known of its pads: whether something reads them.
fn with_reads(alloc: Global, design: Design) -> Result<Design, NoMemory>
    requires { All (HasPort (length design.pads)) design.pads }
    ensures { IfOk result (λ read. read ≡ with_reads design) }
{
    let marks = marks_of(alloc, &design)?;
    let pads = marked_pads(alloc, &marks, design.pads())?;
    let Design {
        cells,
        runs,
        pads: _,
        globals,
        carries,
    } = design;
    Ok(Design {
        cells,
        runs,
        pads: Items::from_vec(pads),
        globals,
        carries,
    })
}

/// The design of a sound netlist, before its runs are made: its logic cells, the pads of its ports, its global buffers, and what
/// comes into each carry.
///
/// # Errors
/// Want of memory alone; numbers of logic cells that don't fit 32 bits count as such.
pub fn pack(alloc: Global, sound: &Sound) -> Result<Design, NoMemory>
    ensures { IfOk result (λ design. design ≡ packed sound.now) }
{
    let design = unread(alloc, sound)?;
    let read = with_reads(alloc, design)?;
    Ok(read)
}
