//! What nets are answered with an opening and without, and that both are the same but for the opening's own log and the nets that move first.
ghost use Rattle.std.specs.Prelude.{◌≡◌, ◌≤◌, length};
ghost use Rattle.ice_negotiate_defs.specs.Rounds.{AreNets};

use crate::claims::expect_that;
use ice_claim_opening::opening;
use ice_core::{MOST_NETS, MOST_WIRES, Net, RoundLog};
use ice_desk::OpenGate;
use ice_graph::{Graph, Tree};
use ice_negotiate::{negotiate, negotiate_from};
use ice_negotiate_defs::{RouteFault, Routed};
use ice_tests_small_graphs::nets_of;
use std::alloc::Global;
use std::process::Abort;
use std::thread::Threads;

/// Nets, of which that of each number goes from the wire of that number to these sinks.
pub fn nets_to(rt: &impl Abort, alloc: Global, graph: &Graph, sinks: &[&[u8]]) -> Vec<Net>
    ensures { AreNets graph.now result.items }
{
    nets_of(alloc, graph, sinks).expect(rt, "nets")
}

/// What is answered from an opening by so many workers.
pub fn opened(
    rt: &(impl Abort + Threads + Sync),
    alloc: Global,
    graph: &Graph,
    nets: &[Net],
    rounds: u32,
    workers: u32,
) -> Result<Routed, RouteFault>
    requires rounds { (1 ≤ rounds) × (rounds ≤ 64) }
    requires workers { (1 ≤ workers) × (workers ≤ 8) }
    requires wires { graph.now.wires ≤ MOST_WIRES }
    requires few { length nets.now ≤ MOST_NETS }
    requires nets { AreNets graph.now nets.now }
{
    let kept = opening(rt, alloc, graph, nets, workers, &OpenGate)?;
    let answer = negotiate_from(rt, alloc, graph, nets, &kept, rounds, workers, &OpenGate);
    drop(kept);
    answer
}

// Fails unless the trees are equal.
fn expect_tree(rt: &impl Abort, found: &Tree, wanted: &Tree) {
    let same = found.wires.as_slice() == wanted.wires.as_slice();
    expect_that(rt, same, b"wires");
    expect_that(rt, found.rows.as_slice() == wanted.rows.as_slice(), b"rows");
}

// Fails unless the trees are equal.
fn expect_trees(rt: &impl Abort, found: &[Tree], wanted: &[Tree]) {
    expect_that(rt, found.len() == wanted.len(), b"trees");
    for (one, other) in found.iter().zip(wanted) {
        expect_tree(rt, one, other);
    }
}

// Fails unless the logs are equal, but for the nets that moved first.
fn expect_log(rt: &impl Abort, found: &RoundLog, wanted: &RoundLog) {
    expect_that(rt, found.round == wanted.round, b"round");
    let same = found.history.as_slice() == wanted.history.as_slice();
    expect_that(rt, same, b"history");
    expect_that(rt, found.over.as_slice() == wanted.over.as_slice(), b"over");
    if found.round > 1 {
        expect_that(rt, found.moved.len() == wanted.moved.len(), b"moved");
        for (one, other) in found.moved.iter().zip(&wanted.moved) {
            expect_that(rt, one.0.0 == other.0.0, b"net");
            expect_tree(rt, &one.1, &other.1);
        }
    }
}

// Fails unless the logs are equal behind that of the opening.
fn expect_logs(rt: &impl Abort, found: &[RoundLog], wanted: &[RoundLog]) {
    expect_that(rt, found.len() == wanted.len().saturating_add(1), b"logs");
    let first = found.first().expect(rt, "a log");
    expect_that(rt, first.round == 0, b"opening");
    for (one, other) in found.iter().skip(1).zip(wanted) {
        expect_log(rt, one, other);
    }
}

// Fails unless the answers are the same.
fn expect_same(
    rt: &impl Abort,
    found: &Result<Routed, RouteFault>,
    wanted: &Result<Routed, RouteFault>,
) {
    match (found, wanted) {
        (Ok(found), Ok(wanted)) => {
            expect_trees(rt, &found.trees, &wanted.trees);
            expect_logs(rt, &found.logs, &wanted.logs);
        }
        (Err(RouteFault::GaveUp { logs, .. }), Err(RouteFault::GaveUp { logs: others, .. })) => {
            expect_logs(rt, logs, others);
        }
        (
            Err(RouteFault::Unreachable { net, sink }),
            Err(
                RouteFault::Unreachable {
                    net: other,
                    sink: its,
                },
            ),
        ) => expect_that(rt, net.0 == other.0 && sink.0 == its.0, b"unreachable"),
        _ => expect_that(rt, false, b"another answer"),
    }
}

/// Fails unless so many workers answer the same with an opening and without.
pub fn expect_unchanged(
    rt: &(impl Abort + Threads + Sync),
    alloc: Global,
    graph: &Graph,
    nets: &[Net],
    rounds: u32,
    workers: u32,
) -> bool
    requires rounds { (1 ≤ rounds) × (rounds ≤ 64) }
    requires workers { (1 ≤ workers) × (workers ≤ 8) }
    requires nets { AreNets graph.now nets.now }
{
    expect_that(rt, graph.wires() <= 1_048_576, b"wires");
    expect_that(rt, nets.len() <= 65_536, b"nets");
    let wanted = negotiate(rt, alloc, graph, nets, rounds, workers, &OpenGate);
    let found = opened(rt, alloc, graph, nets, rounds, workers);
    expect_same(rt, &found, &wanted);
    drop(found);
    wanted.is_ok()
}
