//! The two rounds of two nets over one short wire: from the wires 0 and 1 to 5 and 6, over wire 2, or over 3 and 4.
ghost use Rattle.std.specs.Prelude.{◌≡◌, ◌<◌, ◌≤◌, ◌∷◌, [], map};
ghost use Rattle.ice_worker.specs.Tasks.{IsTaskOf, ArePlayable};

use ice_base::{NetNo, WireNo};
use ice_core::{RoundPrices, Task};
use ice_graph::Graph;
use ice_tests_small_graphs::sinks_of;
use std::alloc::Global;
use std::process::Abort;

// The task of a net from the wire of its number to a sink, which has these old wires.
fn task_to(
    rt: &impl Abort,
    alloc: Global,
    graph: &Graph,
    net: u32,
    sink: &[u8],
    old: &[WireNo],
) -> Task
    ensures task { IsTaskOf graph.now result }
    ensures old { result.old.items ≡ old.now }
{
    let wires = graph.wires();
    assert!(rt; net < wires, "net {net}");
    Task {
        net: NetNo(net),
        root: WireNo(net),
        sinks: sinks_of(alloc, wires, sink).expect(rt, "sinks"),
        old: Vec::from_slice(alloc, old).expect(rt, "memory"),
    }
}

// The prices of a round with these histories and counts.
fn prices_of(
    rt: &impl Abort,
    alloc: Global,
    round: u32,
    history: &[u64],
    counts: &[u32],
) -> RoundPrices
    ensures round { result.round ≡ round }
    ensures history { result.history.items ≡ history.now }
    ensures counts { result.counts.items ≡ counts.now }
{
    RoundPrices {
        round,
        history: Vec::from_slice(alloc, history).expect(rt, "memory"),
        counts: Vec::from_slice(alloc, counts).expect(rt, "memory"),
    }
}

/// A round: what its prices are made of, and its tasks.
#[derive(Drop)]
pub struct Play {
    /// The round, the histories and the counts.
    pub prices: RoundPrices,
    /// The tasks of the nets that move.
    pub tasks: Vec<Task>,
}

/// The first round: both nets move, and nobody holds a wire.
#[tactic(auto, using(crate::proofs::Short::first_ready))]
pub fn first_round(rt: &impl Abort, alloc: Global, graph: &Graph) -> Play
    requires { graph.now.wires ≡ 7 }
    ensures { ArePlayable graph.now result.prices result.tasks.items }
{
    let prices = prices_of(rt, alloc, 1, &[0, 0, 0, 0, 0, 0, 0], &[0, 0, 0, 0, 0, 0, 0]);
    let one = task_to(rt, alloc, graph, 0, b"5", &[]);
    let other = task_to(rt, alloc, graph, 1, b"6", &[]);
    let tasks = vec![in alloc; one, other].expect(rt, "memory");
    Play { prices, tasks }
}

/// The second round: both nets hold wire 2, so many others wire 3, and the first one moves.
pub fn second_round(rt: &impl Abort, alloc: Global, graph: &Graph, third: u32) -> Play
    requires wires { graph.now.wires ≡ 7 }
    requires third { third ≤ 2 }
    ensures { ArePlayable graph.now result.prices result.tasks.items }
{
    let counts = [1, 1, 2, third, 0, 1, 1];
    let prices = prices_of(rt, alloc, 2, &[0, 0, 1, 0, 0, 0, 0], &counts);
    let one = task_to(
        rt,
        alloc,
        graph,
        0,
        b"5",
        &[WireNo(0), WireNo(2), WireNo(5)],
    );
    let tasks = vec![in alloc; one].expect(rt, "memory");
    Play { prices, tasks }
}
