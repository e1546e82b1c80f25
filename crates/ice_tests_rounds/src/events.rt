//! The two rounds as events of the core: which it may do, and what they leave of the counts.
ghost use Rattle.std.specs.Prelude.{◌≡◌, length};
ghost use Rattle.ice_core.specs.Routes.{old_wires, tree_wires, IsOpening};
ghost use Rattle.ice_worker.specs.Tasks.{ArePlayable};
ghost use Rattle.ice_tests_rounds.specs.Routes.{AreRoutes};

use crate::tasks::{first_round, second_round};
use ice_base::WireNo;
use ice_core::{Core, Event, RoundPrices, Task};
use ice_graph::{Graph, Tree};
use ice_tests_small_graphs::{TWO_WAYS, graph_of};
use std::alloc::Global;
use std::process::Abort;

// A worker draws a number.
fn claim(worker: u32) -> Event {
    Event::Claim { worker }
}

// A worker takes its task's old route off a wire.
fn release(worker: u32, wire: u32) -> Event {
    Event::Release {
        worker,
        wire: WireNo(wire),
    }
}

// A worker puts its task's new route on a wire.
fn hold(worker: u32, wire: u32) -> Event {
    Event::Hold {
        worker,
        wire: WireNo(wire),
    }
}

// A worker posts the overuses that came, or those that went.
fn post(worker: u32, up: bool) -> Event {
    Event::Post { worker, up }
}

// In the first round each worker does one of the tasks, wire by wire in turns, and posts what came and went by it.
fn in_turns() -> [Event; 14] {
    [
        claim(0),
        hold(0, 0),
        claim(1),
        hold(1, 1),
        hold(1, 2),
        hold(0, 2),
        hold(0, 5),
        claim(0),
        hold(1, 6),
        claim(1),
        post(0, true),
        post(1, false),
        post(0, false),
        post(1, true),
    ]
}

// In the second round one worker does the only task: first it leaves the old route.
fn leaving() -> [Event; 3] {
    [release(0, 0), release(0, 2), release(0, 5)]
}

// Then it goes the new one.
fn going() -> [Event; 4] {
    [hold(0, 0), hold(0, 3), hold(0, 4), hold(0, 5)]
}

// A tree with these wires.
fn tree_of(rt: &impl Abort, alloc: Global, wires: &[WireNo]) -> Tree
    ensures { result.wires.items ≡ wires.now }
{
    Tree {
        wires: Vec::from_slice(alloc, wires).expect(rt, "memory"),
        rows: Vec::new(alloc),
    }
}

// The new routes of the first round: both nets go the short way.
fn short_ways(rt: &impl Abort, alloc: Global) -> Vec<Tree>
    ensures { AreRoutes 7 (tree_wires result.items) }
{
    let one = tree_of(rt, alloc, &[WireNo(0), WireNo(2), WireNo(5)]);
    let other = tree_of(rt, alloc, &[WireNo(1), WireNo(2), WireNo(6)]);
    let trees = vec![in alloc; one, other].expect(rt, "memory");
    trees
}

// The new route of the second round: the first net goes the long way.
fn long_way(rt: &impl Abort, alloc: Global) -> Vec<Tree>
    ensures { AreRoutes 7 (tree_wires result.items) }
{
    let wires = [WireNo(0), WireNo(3), WireNo(4), WireNo(5)];
    let one = tree_of(rt, alloc, &wires);
    let trees = vec![in alloc; one].expect(rt, "memory");
    trees
}

// The core of two workers as a round of these tasks begins.
fn core_of(rt: &impl Abort, alloc: Global, tasks: &[Task], trees: &[Tree], counts: &[u32]) -> Core
    requires opening { IsOpening (old_wires tasks.now) counts.now }
    requires trees { AreRoutes (length counts.now) (tree_wires trees.now) }
    ensures { length result.state.counts ≡ length counts.now }
{
    assert!(rt; trees.len() == tasks.len(), "a tree for each task");
    Core::start(alloc, tasks, trees, counts, 2).expect(rt, "memory")
}

// Does the event, and fails where the core may not do it.
fn do_event(rt: &impl Abort, core: &mut Core, event: Event)
    ensures { length core.new.state.counts ≡ length core.old.state.counts }
{
    let may = core.may(&event);
    assert!(rt; may, "{event:?}");
    core.step(event);
}

// Does these events, in order.
fn do_events(rt: &impl Abort, core: &mut Core, events: &[Event])
    ensures { length core.new.state.counts ≡ length core.old.state.counts }
{
    for event in events {
        do_event(rt, core, *event);
    }
}

// Fails where the core may do the event.
fn expect_not(rt: &impl Abort, core: &Core, event: Event) {
    let may = core.may(&event);
    assert!(rt; !may, "{event:?}");
}

// Fails unless these are the counts of the wires.
fn expect_counts(rt: &impl Abort, core: &Core, wanted: [u64; 7])
    requires { length core.now.state.counts ≡ 7 }
{
    let found = [
        core.count(WireNo(0)),
        core.count(WireNo(1)),
        core.count(WireNo(2)),
        core.count(WireNo(3)),
        core.count(WireNo(4)),
        core.count(WireNo(5)),
        core.count(WireNo(6)),
    ];
    assert!(rt; found == wanted, "{found:?}");
}

// What the first round leaves.
fn expect_first(rt: &impl Abort, alloc: Global, graph: &Graph, prices: &RoundPrices, tasks: &[Task])
    requires wires { graph.now.wires ≡ 7 }
    requires ready { ArePlayable graph.now prices.now tasks.now }
{
    let _wires = graph.wires();
    let trees = short_ways(rt, alloc);
    let mut core = core_of(rt, alloc, tasks, &trees, &prices.counts);
    expect_not(rt, &core, hold(0, 0));
    do_events(rt, &mut core, &in_turns());
    expect_counts(rt, &core, [1, 1, 2, 0, 0, 1, 1]);
    expect_not(rt, &core, claim(0));
    drop(core);
    drop(trees);
}

// What the second round leaves, and what may not happen before all old wires are released, in order.
fn expect_second(
    rt: &impl Abort,
    alloc: Global,
    graph: &Graph,
    prices: &RoundPrices,
    tasks: &[Task],
)
    requires wires { graph.now.wires ≡ 7 }
    requires ready { ArePlayable graph.now prices.now tasks.now }
{
    let _wires = graph.wires();
    let trees = long_way(rt, alloc);
    let mut core = core_of(rt, alloc, tasks, &trees, &prices.counts);
    do_event(rt, &mut core, claim(0));
    expect_not(rt, &core, hold(0, 0));
    expect_not(rt, &core, release(0, 2));
    expect_not(rt, &core, release(1, 0));
    do_events(rt, &mut core, &leaving());
    expect_counts(rt, &core, [0, 1, 1, 0, 0, 0, 1]);
    expect_not(rt, &core, claim(0));
    do_events(rt, &mut core, &going());
    expect_counts(rt, &core, [1, 1, 1, 1, 1, 1, 1]);
    do_events(rt, &mut core, &[claim(0), claim(1)]);
    expect_not(rt, &core, claim(0));
    drop(core);
    drop(trees);
}

#[test]
fn counts_follow_the_events_of_both_rounds(rt: HostRuntime) {
    let alloc = rt.alloc();
    let graph = graph_of(alloc, 7, TWO_WAYS).expect(&rt, "a graph");
    let first = first_round(&rt, alloc, &graph);
    expect_first(&rt, alloc, &graph, &first.prices, &first.tasks);
    let second = second_round(&rt, alloc, &graph, 0);
    expect_second(&rt, alloc, &graph, &second.prices, &second.tasks);
}
