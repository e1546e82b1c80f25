//! One round: the nets that move get their new trees, by workers on shared words.
ghost use Rattle.std.specs.Prelude.{◌≡◌, ◌<◌, ◌≤◌, ℕ, Some, length, slice_get, All, IfOk, IfErr, OnOk, vec_len};
ghost use Rattle.ice_base.specs.declared.number.NetNo.{NetNo as Number};
ghost use Rattle.ice_base.specs.declared.number.WireNo.{WireNo as Wire};
ghost use Rattle.ice_core.specs.Moves.{IsOccupancy};
ghost use Rattle.ice_negotiate_defs.specs.Rounds.{AreBounded, AreDifferent, AreMoversReached, AreNets, HoldOnce, IsRound};
ghost use Rattle.ice_negotiate_defs.specs.Logs.{IsStop};
ghost use Rattle.ice_worker.specs.Kits.{IsKitOf};
ghost use Rattle.ice_negotiate_defs.specs.Tallies.{IsTally};
ghost use Rattle.ice_negotiate_round.specs.Moving.{IsFaultAt, placed};
ghost use Rattle.ice_worker.specs.declared.stop.WorkStop.TheVariants.{Unreachable as Cut};

use crate::playing::{Played, play_tasks};
use crate::tasks::tasks_of;
use ice_base::NetNo;
use ice_core::{MOST_NETS, Net, RoundPrices};
use ice_desk::Gate;
use ice_graph::{Graph, Tree};
use ice_negotiate_defs::RouteFault;
use ice_words::Counts;
use ice_worker::{Kit, WorkStop};
use std::alloc::Global;
use std::thread::Threads;

/// What a round leaves beside the trees: the counts, with all that was done on the words, and the workers' kits.
#[derive(Drop)]
pub struct Round {
    /// The counts at the end, and what was done.
    pub counts: Counts,
    /// The kits, for a further round.
    pub kits: Vec<Kit>,
}

// Puts the new trees of the nets that moved in the place of their old ones.
fn place(trees: &mut [Tree], moved: &[NetNo], mut news: Vec<Tree>)
    requires long { vec_len news ≡ length moved.now }
    requires within { (k : ℕ) (number : Number) → slice_get moved.now k ≡ Some number
        → number.0 < length trees.old }
    ensures { trees.new ≡ placed trees.old moved.now news.items }
{
    while let Some(tree) = news.pop() {
        trees[moved[news.len()].0 as usize] = tree;
    }
}

// The fault of the net that moves by this task.
fn fault(moved: &[NetNo], stop: WorkStop) -> RouteFault
    requires { (task : ℕ) (sink : Wire) → stop ≡ Cut task sink → task < length moved.now }
    ensures { IsFaultAt moved.now stop result }
{
    match stop {
        WorkStop::Unreachable { task, sink } => RouteFault::Unreachable {
            net: moved[task as usize],
            sink,
        },
        WorkStop::NoMemory => RouteFault::NoMemory,
    }
}

/// One round: each of these nets moves to its tree in the prices of the moment at which the round began. Workers do it, one for each kit, each in a thread, on
/// words that they share, and pass the gate with each net that they claim. What the round leaves does not depend on their number, nor on which of them is first.
///
/// Root and targets of the nets are wires of the graph, each sink has a target, and there are at most 65,536 nets. `trees` are their routes, of which none holds
/// a wire twice, and the counts of `prices` say how many of them hold each wire. `moved` are numbers of different nets. From 1 to 8 kits of this graph are there.
///
/// It answers `Unreachable` exactly where a sink of a net that moves has no target that can be reached, with the first such net of `moved` and the first target
/// of its first such sink, and `NoMemory` where it finds no memory.
pub fn play<G: Gate + Sync, R: Threads + Sync>(
    rt: &R,
    alloc: Global,
    graph: &Graph,
    nets: &[Net],
    prices: &RoundPrices,
    moved: &[NetNo],
    trees: &mut [Tree],
    kits: Vec<Kit>,
    gate: &G,
) -> Result<Round, RouteFault>
    requires nets { AreNets graph.now nets.now }
    requires few { length nets.now ≤ MOST_NETS }
    requires trees { length trees.old ≡ length nets.now }
    requires counts { IsOccupancy prices.now.counts.items trees.old }
    requires apart { HoldOnce trees.old }
    requires moved { AreDifferent nets.now moved.now }
    requires bounded { AreBounded graph.now prices.now.round
        prices.now.history.items prices.now.counts.items }
    requires workers { (1 ≤ vec_len kits) × (vec_len kits ≤ 8) }
    requires kits { All (IsKitOf graph.now) kits.items }
    ensures done { OnOk result (IsRound graph.now nets.now prices.now.round prices.now.history.items
        prices.now.counts.items moved.now trees.old trees.new) }
    ensures apart { OnOk result (HoldOnce trees.new) }
    ensures reached { OnOk result
        (AreMoversReached graph.now nets.now moved.now (length moved.now)) }
    ensures opened { IfOk result (λ round. round.counts.opened ≡ prices.now.counts.items) }
    ensures tally { IfOk result (λ round.
        IsTally graph.now.wires moved.now trees.old trees.new round.counts) }
    ensures many { IfOk result (λ round. vec_len round.kits ≡ vec_len kits) }
    ensures kits { IfOk result (λ round. All (IsKitOf graph.now) round.kits.items) }
    ensures stop { IfErr result (IsStop graph.now nets.now moved.now) }
{
    let tasks = tasks_of(alloc, nets, trees, moved)?;
    match play_tasks(rt, alloc, graph, prices, &tasks, kits, gate) {
        Err(stop) => Err(fault(moved, stop)),
        Ok(played) => {
            let Played { news, counts, kits } = played;
            place(trees, moved, news);
            Ok(Round { counts, kits })
        }
    }
}
