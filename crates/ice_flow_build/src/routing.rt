//! The trees and the bits of a placed design.
ghost use Rattle.std.specs.Prelude.{◌≡◌, ◌+◌, ◌≤◌, [], length, IfOk, IfErr};
ghost use Rattle.std.specs.Bool.{OnTrue};
ghost use Rattle.ice_bits.specs.Configuration.{bits_of};
ghost use Rattle.ice_decode.specs.Faults.{HasNoLoop};
ghost use Rattle.ice_emit.specs.Placed.{IsPlacedOn};
ghost use Rattle.ice_emit_meaning_laws.specs.Feeds.{FaultsAreRings, IsRingless};
ghost use Rattle.ice_emit_nets_laws.specs.Routing.{AreNetsOf};
ghost use Rattle.ice_emit_defs.specs.Realised.{Realises};
ghost use Rattle.ice_emit_defs.specs.Routed.{AreTrees};
ghost use Rattle.ice_emit_defs.specs.Written.{IsWritten, wanted_rows};
ghost use Rattle.ice_negotiate_defs.specs.Fitting.{Fits};
ghost use Rattle.ice_negotiate_defs.specs.Leading.{OpeningLeads};
ghost use Rattle.ice_negotiate_defs.specs.Logs.{AreRoutedFrom, IsFaultFrom};
ghost use Rattle.ice_negotiate_defs.specs.Rounds.{AreNets};
ghost use Rattle.ice_flow_build.specs.Answers.{IsOpeningOf, IsRouted, net_count, opening_in, routes_in};
ghost use Rattle.ice_flow_build.specs.Laid.{plan_in};
ghost use Rattle.ice_flow_build.specs.Stages.{IsPermitted, IsRouteFault, IsRoutedLayout, IsFinished, IsEndFault, unrouted};
ghost use Rattle.ice_flow_build.specs.declared.answer.BuildFault.TheVariants.{NoMemory as out_of_memory};

use crate::aiming::aimed_fabric;
use crate::answer::{BuildFault, Built, Effort, Layout, RoutedLayout};
use ice_base::NoMemory;
use ice_bits_rows::Index;
use ice_chip::Chip;
use ice_claim_opening::opening;
use ice_core::{MOST_NETS, MOST_WIRES, Net};
use ice_desk::Gate;
use ice_emit::emit_by;
use ice_emit_nets::nets_of;
use ice_emit_nets_laws::laws::{placed_nets_are_routable, routed_nets_are_trees};
use ice_graph::Graph;
use ice_negotiate::{negotiate, negotiate_from};
use ice_negotiate_defs::{Kept, RouteFault, Routed};
use ice_net::MOST_SIGNALS;
use std::alloc::Global;
use std::thread::Threads;

// All nets of a placed design.
#[tactic(auto, using(crate::proofs::Counting::nets_counted))]
fn all_nets_in(alloc: Global, chip: &Chip, layout: &Layout) -> Result<Vec<Net>, NoMemory>
    ensures nets { IfOk result (λ nets. AreNetsOf chip.now (plan_in layout.now) nets.items) }
    ensures count { IfOk result (λ nets.
        length nets.items ≡ net_count chip.now (plan_in layout.now)) }
{
    let nets = nets_of(
        alloc,
        chip,
        &layout.design,
        &layout.clusters,
        &layout.placement,
        &layout.pads,
    )?;
    Ok(nets)
}

/// The nets of a placed design.
///
/// # Errors
/// Want of memory alone; more than 65,536 nets count as such, which no placed design of a netlist of at most 65,534 signals has.
pub fn nets_in(alloc: Global, chip: &Chip, layout: &Layout) -> Result<Vec<Net>, NoMemory>
    ensures nets { IfOk result (λ nets. AreNetsOf chip.now (plan_in layout.now) nets.items) }
    ensures count { IfOk result (λ nets.
        length nets.items ≡ net_count chip.now (plan_in layout.now)) }
    ensures few { IfOk result (λ nets. length nets.items ≤ MOST_NETS) }
{
    let nets = all_nets_in(alloc, chip, layout)?;
    if nets.len() > MOST_NETS as usize {
        return Err(NoMemory);
    }
    Ok(nets)
}

/// The nets of a placed design that has at most two nets more than its netlist has signals.
///
/// # Errors
/// Want of memory alone; only of a netlist of more than 65,534 signals, more than 65,536 nets count as such.
pub fn nets_by_signals(
    alloc: Global,
    chip: &Chip,
    layout: &Layout,
    signals: u32,
) -> Result<Vec<Net>, NoMemory>
    requires { net_count chip.now (plan_in layout.now) ≤ signals + 2 }
    ensures nets { IfOk result (λ nets. AreNetsOf chip.now (plan_in layout.now) nets.items) }
    ensures few { IfOk result (λ nets. length nets.items ≤ MOST_NETS) }
{
    if signals > MOST_SIGNALS {
        return nets_in(alloc, chip, layout);
    }
    let nets = all_nets_in(alloc, chip, layout)?;
    Ok(nets)
}

// What the opening leaves of the nets: nothing where it is not asked for.
fn open<G: Gate + Sync, R: Threads + Sync>(
    rt: &R,
    alloc: Global,
    graph: &Graph,
    nets: &[Net],
    effort: Effort,
    gate: &G,
) -> Result<Vec<Kept>, NoMemory>
    requires workers { (1 ≤ effort.workers) × (effort.workers ≤ 8) }
    requires wires { graph.now.wires ≤ MOST_WIRES }
    requires few { length nets.now ≤ MOST_NETS }
    requires nets { AreNets graph.now nets.now }
    ensures opened { IfOk result (λ kept. IsOpeningOf graph.now nets.now effort kept.items) }
    ensures fits { IfOk result (λ kept.
        OnTrue effort.opening (Fits graph.now nets.now kept.items)) }
{
    if !effort.opening {
        return Ok(Vec::new(alloc));
    }
    let kept = opening(rt, alloc, graph, nets, effort.workers, gate)?;
    Ok(kept)
}

// The trees of nets from what the opening left of them, if there was one.
#[tactic(auto, using(crate::proofs::Opening::opening_leads))]
fn route_from<G: Gate + Sync, R: Threads + Sync>(
    rt: &R,
    alloc: Global,
    graph: &Graph,
    nets: &[Net],
    kept: &[Kept],
    effort: Effort,
    gate: &G,
) -> Result<Routed, RouteFault>
    requires effort { IsPermitted effort }
    requires wires { graph.now.wires ≤ MOST_WIRES }
    requires few { length nets.now ≤ MOST_NETS }
    requires nets { AreNets graph.now nets.now }
    requires fits { OnTrue effort.opening (Fits graph.now nets.now kept.now) }
    ensures leads { OpeningLeads graph.now nets.now (opening_in effort kept.now) }
    ensures routed { IfOk result
        (AreRoutedFrom graph.now nets.now (opening_in effort kept.now) effort.rounds) }
    ensures fault { IfErr result
        (IsFaultFrom graph.now nets.now (opening_in effort kept.now) effort.rounds) }
{
    let Effort {
        seed: _,
        rounds,
        workers,
        opening,
    } = effort;
    if opening {
        return negotiate_from(rt, alloc, graph, nets, kept, rounds, workers, gate);
    }
    negotiate(rt, alloc, graph, nets, rounds, workers, gate)
}

/// The trees of the nets of a placed design on an indexed chip, in at most so many rounds, from 1 to 64, by 1 to 8 workers, each in a
/// thread, on whom nothing depends without the opening; and in `kept`, which is empty, what the opening left of the nets. No bits are
/// set.
///
/// # Errors
/// The first sink to which no walk leads; permitted rounds that all end with an overused wire; want of memory.
pub fn route<G: Gate + Sync, R: Threads + Sync>(
    rt: &R,
    alloc: Global,
    index: &Index<'_>,
    layout: &Layout,
    nets: &[Net],
    effort: Effort,
    kept: &mut Vec<Kept>,
    gate: &G,
) -> Result<Routed, RouteFault>
    requires placed { IsPlacedOn index.now.chip.now (plan_in layout.now) layout.now.pads.pullups 0 }
    requires nets { AreNetsOf index.now.chip.now (plan_in layout.now) nets.now }
    requires few { length nets.now ≤ MOST_NETS }
    requires effort { IsPermitted effort }
    ensures routed { IfOk result
        (IsRouted index.now.chip.now (plan_in layout.now) effort kept.new.items) }
    ensures trees { IfOk result (λ routed.
        AreTrees index.now.chip.now (plan_in layout.now) (routes_in routed)) }
    ensures fault { IfErr result
        (IsRouteFault index.now.chip.now (plan_in layout.now) effort kept.new.items) }
{
    index.chip.is_chip();
    placed_nets_are_routable();
    routed_nets_are_trees();
    let graph = aimed_fabric(alloc, index, nets)?;
    *kept = open(rt, alloc, &graph, nets, effort, gate)?;
    route_from(rt, alloc, &graph, nets, kept, effort, gate)
}

// Why nothing is built of a placed design with so many nets that is not routed.
fn unrouted(layout: Layout, nets: u32, kept: Vec<Kept>, fault: RouteFault) -> BuildFault
    ensures { result ≡ unrouted layout nets kept fault }
{
    match fault {
        RouteFault::Unreachable { net, sink } => BuildFault::Unreachable { layout, net, sink },
        RouteFault::GaveUp { logs, tallies } => BuildFault::GaveUp {
            layout,
            nets,
            kept,
            logs,
            tallies,
        },
        RouteFault::NoMemory => BuildFault::NoMemory,
    }
}

// The bits of a placed and routed design.
fn write(alloc: Global, index: &Index<'_>, made: RoutedLayout) -> Result<Built, BuildFault>
    requires placed { IsPlacedOn index.now.chip.now (plan_in made.layout) made.layout.pads.pullups 0 }
    requires trees { AreTrees index.now.chip.now (plan_in made.layout) (routes_in made.routed) }
    ensures layout { IfOk result (λ built. built.layout ≡ made.layout) }
    ensures kept { IfOk result (λ built. built.kept ≡ made.kept) }
    ensures routed { IfOk result (λ built. built.routed ≡ made.routed) }
    ensures written { IfOk result (λ built. IsWritten index.now.chip.now (plan_in made.layout)
        made.layout.pads.pullups [] (routes_in made.routed) built.bits) }
    ensures loopless { IfOk result (λ built. IsRingless index.now.chip.now
        → HasNoLoop index.now.chip.now (bits_of built.bits) built.bits.extras) }
    ensures ring { IfOk result (λ built.
        FaultsAreRings index.now.chip.now (bits_of built.bits) built.bits.extras) }
    ensures realised { IfOk result (λ built.
        HasNoLoop index.now.chip.now (bits_of built.bits) built.bits.extras
        → Realises index.now.chip.now (plan_in made.layout) []
        (wanted_rows index.now.chip.now (plan_in made.layout) (routes_in built.routed))
        (bits_of built.bits) built.bits.extras) }
    ensures stop { IfErr result (λ fault. fault ≡ out_of_memory) }
{
    let RoutedLayout {
        layout,
        nets,
        kept,
        routed,
    } = made;
    drop(nets);
    match emit_by(
        alloc,
        index,
        &layout.design,
        &layout.clusters,
        &layout.placement,
        &layout.pads,
        &[],
        routed.trees.as_slice(),
    ) {
        Ok(bits) => Ok(Built {
            layout,
            kept,
            routed,
            bits,
        }),
        Err(NoMemory) => {
            drop((layout, kept, routed));
            Err(BuildFault::NoMemory)
        }
    }
}

// A placed design on an indexed chip with these nets, which are its own and at most 65,536, routed within the permitted rounds; and in
// `kept`, which is empty, what the opening left of them.
#[tactic(auto, using(crate::proofs::Counting::nets_counted))]
fn route_nets<G: Gate + Sync, R: Threads + Sync>(
    rt: &R,
    alloc: Global,
    index: &Index<'_>,
    layout: Layout,
    nets: Vec<Net>,
    mut kept: Vec<Kept>,
    effort: Effort,
    gate: &G,
) -> Result<RoutedLayout, BuildFault>
    requires placed { IsPlacedOn index.now.chip.now (plan_in layout) layout.pads.pullups 0 }
    requires nets { AreNetsOf index.now.chip.now (plan_in layout) nets.items }
    requires few { length nets.items ≤ MOST_NETS }
    requires effort { IsPermitted effort }
    ensures routed { IfOk result (IsRoutedLayout index.now.chip.now effort layout) }
    ensures fault { IfErr result (IsEndFault index.now.chip.now effort layout) }
{
    match route(
        rt,
        alloc,
        index,
        &layout,
        nets.as_slice(),
        effort,
        &mut kept,
        gate,
    ) {
        Err(fault) => Err(unrouted(layout, nets.len() as u32, kept, fault)),
        Ok(routed) => Ok(RoutedLayout {
            layout,
            nets,
            kept,
            routed,
        }),
    }
}

/// A placed design on an indexed chip with its nets, routed within the permitted rounds.
///
/// # Errors
/// A sink that can't be reached, or permitted rounds that all end with an overused wire, with the placed design; want of memory, as
/// which more than 65,536 nets count.
pub fn route_layout<G: Gate + Sync, R: Threads + Sync>(
    rt: &R,
    alloc: Global,
    index: &Index<'_>,
    layout: Layout,
    effort: Effort,
    gate: &G,
) -> Result<RoutedLayout, BuildFault>
    requires placed { IsPlacedOn index.now.chip.now (plan_in layout) layout.pads.pullups 0 }
    requires effort { IsPermitted effort }
    ensures routed { IfOk result (IsRoutedLayout index.now.chip.now effort layout) }
    ensures fault { IfErr result (IsEndFault index.now.chip.now effort layout) }
{
    let kept = Vec::new(alloc);
    let nets = nets_in(alloc, index.chip, &layout)?;
    route_nets(rt, alloc, index, layout, nets, kept, effort, gate)
}

/// The bits of a placed design on an indexed chip with these nets, which are its own and at most 65,536, routed within the permitted
/// rounds.
///
/// # Errors
/// A sink that can't be reached, or permitted rounds that all end with an overused wire, with the placed design; want of memory.
pub fn finish<G: Gate + Sync, R: Threads + Sync>(
    rt: &R,
    alloc: Global,
    index: &Index<'_>,
    layout: Layout,
    nets: Vec<Net>,
    effort: Effort,
    gate: &G,
) -> Result<Built, BuildFault>
    requires placed { IsPlacedOn index.now.chip.now (plan_in layout) layout.pads.pullups 0 }
    requires nets { AreNetsOf index.now.chip.now (plan_in layout) nets.items }
    requires few { length nets.items ≤ MOST_NETS }
    requires effort { IsPermitted effort }
    ensures finished { IfOk result (IsFinished index.now.chip.now effort layout) }
    ensures loopless { IfOk result (λ built. IsRingless index.now.chip.now
        → HasNoLoop index.now.chip.now (bits_of built.bits) built.bits.extras) }
    ensures ring { IfOk result (λ built.
        FaultsAreRings index.now.chip.now (bits_of built.bits) built.bits.extras) }
    ensures realised { IfOk result (λ built.
        HasNoLoop index.now.chip.now (bits_of built.bits) built.bits.extras
        → Realises index.now.chip.now (plan_in layout) []
        (wanted_rows index.now.chip.now (plan_in layout) (routes_in built.routed))
        (bits_of built.bits) built.bits.extras) }
    ensures fault { IfErr result (IsEndFault index.now.chip.now effort layout) }
{
    let kept = Vec::new(alloc);
    match route_nets(rt, alloc, index, layout, nets, kept, effort, gate) {
        Ok(made) => write(alloc, index, made),
        Err(fault) => Err(fault),
    }
}
