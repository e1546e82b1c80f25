//! A placed design, its routes and its bits, as they are shown.
ghost use Rattle.std.specs.Prelude.{◌≤◌, length};
ghost use Rattle.ice_flow_build.specs.Answers.{routes_in};
ghost use Rattle.ice_flow_build.specs.Laid.{plan_in};
ghost use Rattle.ice_emit.specs.Placed.{IsPlacedOn};
ghost use Rattle.ice_emit_nets_laws.specs.Routing.{AreNetsOf};
ghost use Rattle.ice_emit_defs.specs.Routed.{AreTrees};

use crate::placed::{say_nets, say_places};
use crate::text::Text;
use ice_asc::write_asc;
use ice_base::{NoMemory, to_u32};
use ice_bits_rows::Index;
use ice_chip::Chip;
use ice_core::{MOST_NETS, Net, RoundLog};
use ice_desk::OpenGate;
use ice_emit::emit;
use ice_flow_build::{Effort, Layout, nets_in, route};
use ice_negotiate_defs::{RouteFault, Routed};
use ice_place_length::wire_length;
use ice_report::route_report;
use std::alloc::Global;
use std::thread::Threads;

// Shows the report on the routes of a placed design that has so many nets, of rounds with these logs.
fn show_report(
    text: &mut Text,
    layout: &Layout,
    nets: usize,
    logs: &[RoundLog],
    routed: bool,
) -> Result<(), NoMemory> {
    let cells = to_u32(layout.design.cells().len())?;
    let tiles = to_u32(layout.clusters.list().len())?;
    let nets = to_u32(nets)?;
    text.say(b"report\n");
    route_report(cells, tiles, nets, logs, routed, &mut text.bytes)
}

// Shows the text of the bits of a placed and routed design.
fn show_bits(
    text: &mut Text,
    alloc: Global,
    chip: &Chip,
    layout: &Layout,
    routed: &Routed,
) -> Result<(), NoMemory>
    requires placed { IsPlacedOn chip.now (plan_in layout.now) layout.now.pads.pullups 0 }
    requires trees { AreTrees chip.now (plan_in layout.now) (routes_in routed.now) }
{
    let bits = emit(
        alloc,
        chip,
        &layout.design,
        &layout.clusters,
        &layout.placement,
        &layout.pads,
        &[],
        routed.trees.as_slice(),
    )?;
    text.say(b"bits\n");
    write_asc(&bits, chip, &mut text.bytes)
}

// Says why a placed design that has so many nets is not routed.
fn say_unrouted(
    text: &mut Text,
    layout: &Layout,
    nets: usize,
    fault: &RouteFault,
) -> Result<(), NoMemory> {
    match fault {
        RouteFault::Unreachable { net, sink } => {
            text.count(b"error 9 unreachable net ", net.0);
            text.count(b" sink ", sink.0);
            text.say(b"\n");
            Ok(())
        }
        RouteFault::GaveUp { logs, .. } => show_report(text, layout, nets, logs, false),
        RouteFault::NoMemory => Err(NoMemory),
    }
}

// Shows the report and the bits of a placed and routed design that has so many nets.
fn show_routed(
    text: &mut Text,
    alloc: Global,
    chip: &Chip,
    layout: &Layout,
    nets: usize,
    routed: &Routed,
) -> Result<(), NoMemory>
    requires placed { IsPlacedOn chip.now (plan_in layout.now) layout.now.pads.pullups 0 }
    requires trees { AreTrees chip.now (plan_in layout.now) (routes_in routed.now) }
{
    show_report(text, layout, nets, &routed.logs, true)?;
    show_bits(text, alloc, chip, layout, routed)
}

// Shows what comes of routing these nets of a placed design on an indexed chip, with 64 rounds permitted.
fn show_routes<R: Threads + Sync>(
    rt: &R,
    text: &mut Text,
    alloc: Global,
    index: &Index<'_>,
    layout: &Layout,
    nets: &[Net],
) -> Result<(), NoMemory>
    requires placed { IsPlacedOn index.now.chip.now (plan_in layout.now)
        layout.now.pads.pullups 0 }
    requires nets { AreNetsOf index.now.chip.now (plan_in layout.now) nets.now }
    requires few { length nets.now ≤ MOST_NETS }
{
    let effort = Effort {
        seed: 1,
        rounds: 64,
        workers: 2,
        opening: false,
    };
    let mut kept = Vec::new(alloc);
    match route(rt, alloc, index, layout, nets, effort, &mut kept, &OpenGate) {
        Ok(routed) => {
            let shown = show_routed(text, alloc, index.chip, layout, nets.len(), &routed);
            drop(routed);
            shown
        }
        Err(fault) => {
            let shown = say_unrouted(text, layout, nets.len(), &fault);
            drop(fault);
            shown
        }
    }
}

// Says the wire length of a placed design.
fn say_length(text: &mut Text, chip: &Chip, layout: &Layout) -> Result<(), NoMemory> {
    let _ports = to_u32(layout.pads.ports().len())?;
    let _cells = to_u32(layout.design.cells().len())?;
    let length = wire_length(
        chip,
        &layout.clusters,
        &layout.design,
        &layout.placement,
        &layout.pads,
    );
    text.count(b"length ", length);
    text.say(b"\n");
    Ok(())
}

// Shows a placed design on an indexed chip.
fn show_by<R: Threads + Sync>(
    rt: &R,
    text: &mut Text,
    alloc: Global,
    index: &Index<'_>,
    layout: &Layout,
) -> Result<(), NoMemory>
    requires { IsPlacedOn index.now.chip.now (plan_in layout.now) layout.now.pads.pullups 0 }
{
    say_places(text, layout.placement.tiles());
    say_length(text, index.chip, layout)?;
    let nets = nets_in(alloc, index.chip, layout)?;
    say_nets(text, &nets);
    show_routes(rt, text, alloc, index, layout, &nets)
}

/// Shows a placed design: the tiles of its clusters, its wire length and its nets, and then the report on their routes and the text of its
/// bits, or the first sink that no walk reaches.
///
/// # Errors
/// Want of memory.
pub fn show_placed<R: Threads + Sync>(
    rt: &R,
    text: &mut Text,
    alloc: Global,
    chip: &Chip,
    layout: &Layout,
) -> Result<(), NoMemory>
    requires { IsPlacedOn chip.now (plan_in layout.now) layout.now.pads.pullups 0 }
{
    let index = Index::new(alloc, chip)?;
    show_by(rt, text, alloc, &index, layout)
}
