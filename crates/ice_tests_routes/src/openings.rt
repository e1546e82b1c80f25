//! Two nets that want one wire, and a net that is cut between two others.
ghost use Rattle.std.specs.Prelude.{◌≡◌, ◌≤◌};
ghost use Rattle.ice_negotiate_defs.specs.Rounds.{AreNets};

use crate::claims::expect_that;
use crate::opened::{nets_to, opened};
use ice_base::WireNo;
use ice_claim_opening::{Kept, opening};
use ice_core::Net;
use ice_desk::OpenGate;
use ice_graph::{Graph, Tree};
use ice_negotiate_defs::{RouteFault, Routed};
use ice_tests_small_graphs::{TWO_WAYS, graph_of};
use std::alloc::Global;
use std::process::Abort;
use std::thread::Threads;

// Fails unless the tree has these rows.
fn expect_rows(rt: &impl Abort, tree: &Tree, rows: &[u32]) {
    expect_that(rt, tree.rows.len() == rows.len(), b"rows");
    for (one, other) in tree.rows.iter().zip(rows) {
        expect_that(rt, one.0 == *other, b"row");
    }
}

// What is left of the nets by one worker.
fn left_of(
    rt: &(impl Abort + Threads + Sync),
    alloc: Global,
    graph: &Graph,
    nets: &[Net],
) -> Vec<Kept>
    requires { AreNets graph.now nets.now }
{
    expect_that(rt, graph.wires() <= 1_048_576, b"wires");
    expect_that(rt, nets.len() <= 65_536, b"nets");
    opening(rt, alloc, graph, nets, 1, &OpenGate).expect(rt, "memory")
}

// What is answered from the opening of one worker.
fn answer_of(
    rt: &(impl Abort + Threads + Sync),
    alloc: Global,
    graph: &Graph,
    nets: &[Net],
) -> Result<Routed, RouteFault>
    requires { AreNets graph.now nets.now }
{
    expect_that(rt, graph.wires() <= 1_048_576, b"wires");
    expect_that(rt, nets.len() <= 65_536, b"nets");
    opened(rt, alloc, graph, nets, 64, 1)
}

// Fails unless the net of this place keeps a tree of these rows.
fn expect_whole(rt: &impl Abort, kept: &[Kept], place: usize, rows: &[u32]) {
    match kept.get(place) {
        Some(Kept::Whole(tree)) => expect_rows(rt, tree, rows),
        _ => expect_that(rt, false, b"whole"),
    }
}

// Fails unless the log of this number has these moved nets, each with so many rows.
fn expect_moved(rt: &impl Abort, routed: &Routed, number: usize, moved: &[(u32, usize)]) {
    let log = routed.logs.get(number).expect(rt, "a log");
    expect_that(rt, log.round as usize == number, b"round");
    expect_that(rt, log.moved.len() == moved.len(), b"moved");
    for (one, other) in log.moved.iter().zip(moved) {
        expect_that(rt, one.0.0 == other.0, b"net");
        expect_that(rt, one.1.rows.len() == other.1, b"rows");
    }
}

// Fails unless the first of two nets keeps the short way, and goes the long way in the end.
fn expect_long_way(rt: &(impl Abort + Threads + Sync), alloc: Global, graph: &Graph, nets: &[Net])
    requires { AreNets graph.now nets.now }
{
    let kept = left_of(rt, alloc, graph, nets);
    expect_that(rt, kept.len() == 2, b"nets");
    expect_whole(rt, &kept, 0, &[0, 5]);
    let lost = matches!(kept.get(1), Some(Kept::Lost(WireNo(2))));
    expect_that(rt, lost, b"lost");
    drop(kept);
    let routed = answer_of(rt, alloc, graph, nets).expect(rt, "routes");
    expect_that(rt, routed.logs.len() == 3, b"logs");
    expect_moved(rt, &routed, 0, &[(0, 2)]);
    expect_moved(rt, &routed, 1, &[(1, 2)]);
    expect_moved(rt, &routed, 2, &[(0, 3)]);
    let first = routed.tallies.first().expect(rt, "a tally");
    let counts = (first.claims(), first.releases(), first.holds());
    expect_that(rt, counts == (1, 0, 3), b"tally");
    expect_that(rt, routed.tallies.len() == 2, b"tallies");
    drop(routed);
}

// The two nets over one short wire.
fn expect_two_nets(rt: &(impl Abort + Threads + Sync), alloc: Global, graph: &Graph) {
    let nets = nets_to(rt, alloc, graph, &[b"5", b"6"]);
    expect_long_way(rt, alloc, graph, &nets);
}

#[test]
fn the_first_of_two_nets_keeps_the_short_way(rt: HostRuntime) {
    let alloc = rt.alloc();
    let graph = graph_of(alloc, 7, TWO_WAYS).expect(&rt, "a graph");
    expect_two_nets(&rt, alloc, &graph);
}

// Fails unless the second net is cut, and the two others are kept.
fn expect_cut(rt: &(impl Abort + Threads + Sync), alloc: Global, graph: &Graph, nets: &[Net])
    requires { AreNets graph.now nets.now }
{
    let kept = left_of(rt, alloc, graph, nets);
    expect_whole(rt, &kept, 0, &[0]);
    let cut = matches!(kept.get(1), Some(Kept::Cut(WireNo(4))));
    expect_that(rt, cut, b"cut");
    expect_whole(rt, &kept, 2, &[1]);
    drop(kept);
    let fault = answer_of(rt, alloc, graph, nets)
        .err()
        .expect(rt, "a fault");
    let unreachable =
        matches!(fault, RouteFault::Unreachable { net, sink } if net.0 == 1 && sink.0 == 4);
    expect_that(rt, unreachable, b"unreachable");
    drop(fault);
}

// Three nets, of which the second one has no way.
fn expect_three_nets(rt: &(impl Abort + Threads + Sync), alloc: Global, graph: &Graph) {
    let nets = nets_to(rt, alloc, graph, &[b"3", b"4", b"5"]);
    expect_cut(rt, alloc, graph, &nets);
}

#[test]
fn a_net_between_two_others_is_cut(rt: HostRuntime) {
    let alloc = rt.alloc();
    let graph = graph_of(alloc, 6, b"0 0 3  1 2 5").expect(&rt, "a graph");
    expect_three_nets(&rt, alloc, &graph);
}
