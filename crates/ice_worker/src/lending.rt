//! A task's prices: those of the round, with its own net left out while its tree is made.
ghost use Rattle.std.specs.Prelude.{◌≡◌, ◌<◌, ℕ, length, IfOk, IfErr, OnOk};
ghost use Rattle.ice_path.specs.Room.{IsFor, AreWires};
ghost use Rattle.ice_negotiate_defs.specs.Rounds.{AreOpen};
ghost use Rattle.ice_negotiate_defs.specs.Trees.{AreOnce, AreReached, IsCause, IsRooted};
ghost use Rattle.ice_worker.specs.Tasks.{AreLeft, AreFor, AreTaskPrices, IsNewTree, IsTaskOf, KeepsBounds};

use ice_base::WireNo;
use ice_core::{Prices, RoundPrices, Task};
use ice_graph::{Graph, Tree};
use ice_negotiate_defs::{TreeStop, tree_of};
use ice_path::Scratch;
use std::alloc::Global;

// Counts one net less on each of these wires.
fn leave_out(others: &mut [u32], counts: &[u32], old: &[WireNo])
    requires open { others.old ≡ counts.now }
    requires within { AreWires (length counts.now) old.now }
    ensures { AreLeft counts.now old.now others.new }
{
    for wire in old {
        others[wire.0 as usize] = counts[wire.0 as usize].saturating_sub(1);
    }
}

// Counts all nets on each of these wires again.
fn bring_back(others: &mut [u32], counts: &[u32], old: &[WireNo])
    requires left { AreLeft counts.now old.now others.old }
    requires within { AreWires (length counts.now) old.now }
    ensures { others.new ≡ counts.now }
{
    for wire in old {
        others[wire.0 as usize] = counts[wire.0 as usize];
    }
}

// Takes the net with these wires off the others.
fn leave(prices: &mut Prices, round: &RoundPrices, old: &[WireNo])
    requires open { AreOpen round.now.round round.now.history.items
        round.now.counts.items prices.old }
    requires within { AreWires (length round.now.counts.items) old.now }
    ensures { AreTaskPrices round.now.round round.now.history.items round.now.counts.items
        old.now prices.new }
{
    leave_out(&mut prices.others, &round.counts, old);
}

// Brings the net with these wires back among the others.
fn come_back(prices: &mut Prices, round: &RoundPrices, old: &[WireNo])
    requires left { AreTaskPrices round.now.round round.now.history.items round.now.counts.items
        old.now prices.old }
    requires within { AreWires (length round.now.counts.items) old.now }
    ensures { AreOpen round.now.round round.now.history.items round.now.counts.items prices.new }
{
    bring_back(&mut prices.others, &round.counts, old);
}

// Sets the prices to those of the round, with all nets among the others.
pub fn begin(prices: &mut Prices, round: &RoundPrices)
    requires histories { length prices.old.history.items ≡ length round.now.history.items }
    requires others { length prices.old.others.items ≡ length round.now.counts.items }
    ensures { AreOpen round.now.round round.now.history.items round.now.counts.items prices.new }
{
    prices.round = round.round;
    prices.history.copy_from_slice(&round.history);
    prices.others.copy_from_slice(&round.counts);
}

// The tree of the task. The others of `prices` are all nets as the round began, and are so again behind it.
pub fn task_tree(
    alloc: Global,
    graph: &Graph,
    round: &RoundPrices,
    task: &Task,
    prices: &mut Prices,
    scratch: &mut Scratch,
) -> Result<Tree, TreeStop>
    requires open { AreOpen round.now.round round.now.history.items
        round.now.counts.items prices.old }
    requires history { length round.now.history.items ≡ graph.now.wires }
    requires old { AreWires (length round.now.counts.items) task.now.old.items }
    requires task { IsTaskOf graph.now task.now }
    requires bounded { KeepsBounds round.now task.now }
    requires scratch { IsFor graph.now scratch.old }
    ensures tree { IfOk result (IsNewTree graph.now round.now task.now) }
    ensures rooted { IfOk result (λ tree. IsRooted graph.now task.now.root tree.wires.items) }
    ensures apart { IfOk result (λ tree. AreOnce tree.wires.items) }
    ensures reached { OnOk result (AreReached graph.now.edges task.now.root task.now.sinks.items) }
    ensures stop { IfErr result (IsCause graph.now.edges task.now.root task.now.sinks.items) }
    ensures open { AreOpen round.now.round round.now.history.items
        round.now.counts.items prices.new }
    ensures scratch { IsFor graph.now scratch.new }
{
    leave(prices, round, &task.old);
    let made = tree_of(alloc, graph, prices, task.root, &task.sinks, scratch);
    come_back(prices, round, &task.old);
    made
}
