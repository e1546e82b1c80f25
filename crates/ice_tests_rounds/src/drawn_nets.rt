//! Nets in generated graphs, of which no net of another number has a target.
ghost use Rattle.std.specs.Prelude.{◌≡◌, ◌<◌, IfOk, length};
ghost use Rattle.ice_negotiate_defs.specs.Rounds.{AreNets};
ghost use Rattle.ice_negotiate_defs.specs.Trees.{AreSinks};
ghost use Rattle.ice_path.specs.Room.{AreWires};

use crate::claims::expect_that;
use ice_base::{NetNo, Sink, WireNo};
use ice_core::Net;
use ice_graph::Graph;
use ice_tests_small_graphs::{add_net, add_sink, add_wire, draw};
use rand_pcg::Pcg32;
use std::alloc::{AllocError, Global};
use std::process::Abort;

/// So many nets, and so many wires for each: wire w is of the net w modulo the number of nets. The first wires are the roots, and no
/// edge enters them.
#[derive(Clone, Copy)]
pub struct Size {
    /// How many nets there are, at least one.
    pub nets: u32,
    /// How many wires there are for each, at least two.
    pub wires: u32,
}

impl Size {
    /// How many wires the graph has.
    pub fn all(self) -> u32 {
        self.nets.saturating_mul(self.wires)
    }
}

// A drawn wire of the net of a number, which is no root, or maybe its own one.
fn drawn_target(rt: &impl Abort, words: &mut Pcg32, size: Size, number: u32) -> u32 {
    expect_that(rt, size.nets > 0, b"nets");
    expect_that(rt, size.wires > 1, b"wires");
    let turn = 1 + draw(words, size.wires - 1);
    let one = size.nets.saturating_mul(turn).saturating_add(number);
    let other = draw(words, size.all().max(1));
    if other % size.nets == number {
        other
    } else {
        one
    }
}

// One target, or two.
fn drawn_targets(
    rt: &impl Abort,
    alloc: Global,
    words: &mut Pcg32,
    graph: &Graph,
    size: Size,
    number: u32,
    more: bool,
) -> Result<Vec<WireNo>, AllocError>
    ensures { IfOk result (λ targets. AreWires graph.now.wires targets.items) }
{
    let mut targets = Vec::new(alloc);
    for turn in 0..2 {
        if more || turn == 0 {
            let target = drawn_target(rt, words, size, number);
            expect_that(rt, target < graph.wires(), b"target");
            add_wire(&mut targets, graph.wires(), target)?;
        }
    }
    Ok(targets)
}

// The sink with one target, or with two.
fn drawn_sink(
    rt: &impl Abort,
    alloc: Global,
    words: &mut Pcg32,
    graph: &Graph,
    size: Size,
    number: u32,
    more: bool,
) -> Sink
    ensures some { 0 < length result }
    ensures targets { AreWires graph.now.wires result }
{
    let targets = drawn_targets(rt, alloc, words, graph, size, number, more).expect(rt, "memory");
    expect_that(rt, !targets.is_empty(), b"targets");
    Sink::from_targets(targets)
}

// Two drawn sinks, of which the second has two targets.
fn drawn_sinks(
    rt: &impl Abort,
    alloc: Global,
    words: &mut Pcg32,
    graph: &Graph,
    size: Size,
    number: u32,
) -> Result<Vec<Sink>, AllocError>
    ensures { IfOk result (λ sinks. AreSinks graph.now.wires sinks.items) }
{
    let mut sinks = Vec::new(alloc);
    for turn in 0..2 {
        let sink = drawn_sink(rt, alloc, words, graph, size, number, turn == 1);
        add_sink(&mut sinks, graph.wires(), sink)?;
    }
    Ok(sinks)
}

// A net with this number, which is also that of its root.
fn drawn_net(
    rt: &impl Abort,
    alloc: Global,
    words: &mut Pcg32,
    graph: &Graph,
    size: Size,
    number: u32,
) -> Net
    ensures root { result.root.0 < graph.now.wires }
    ensures sinks { AreSinks graph.now.wires result.sinks.items }
{
    expect_that(rt, number < graph.wires(), b"net");
    let sinks = drawn_sinks(rt, alloc, words, graph, size, number).expect(rt, "memory");
    Net {
        net: NetNo(number),
        root: WireNo(number),
        sinks,
    }
}

/// Drawn nets of a graph.
pub fn drawn_nets(
    rt: &impl Abort,
    alloc: Global,
    words: &mut Pcg32,
    graph: &Graph,
    size: Size,
) -> Result<Vec<Net>, AllocError>
    ensures { IfOk result (λ nets. AreNets graph.now nets.items) }
{
    let mut nets = Vec::new(alloc);
    for number in 0..size.nets {
        let net = drawn_net(rt, alloc, words, graph, size, number);
        add_net(&mut nets, graph, net)?;
    }
    Ok(nets)
}
