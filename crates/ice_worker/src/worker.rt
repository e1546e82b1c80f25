//! A worker's tasks in a round.
ghost use Rattle.std.specs.Prelude.{◌≡◌, ◌<◌, false, length, All, OnOk, IfErr};
ghost use Rattle.ice_core.specs.Routes.{old_wires};
ghost use Rattle.ice_words.specs.Views.{with_own, own, posted};
ghost use Rattle.ice_words.specs.Grips.{IsHandOf};
ghost use Rattle.ice_worker.specs.Tasks.{IsMade, ArePlayable};
ghost use Rattle.ice_worker.specs.Work.{IsNew};
ghost use Rattle.ice_worker.specs.Kits.{AddsOne, Falls, IsBegun, IsFresh, IsKitOf, Stops, StopsAt, claims_of, done_part, made_by};

use crate::kit::Kit;
use crate::lending::{begin, task_tree};
use crate::steps::replace;
use crate::stop::{WorkStop, stop_of};
use ice_core::{RoundPrices, Task};
use ice_desk::Gate;
use ice_graph::Graph;
use ice_words::{Hand, Words};
use std::alloc::Global;

// Does the task of the newest claim.
fn do_task<G: Gate>(
    alloc: Global,
    words: &Words,
    hand: &mut Hand,
    graph: &Graph,
    prices: &RoundPrices,
    tasks: &[Task],
    number: u32,
    worker: u32,
    gate: &G,
    kit: &mut Kit,
) -> Result<(), WorkStop>
    requires of { IsHandOf words.now hand.old }
    requires going { (own hand.old.view).ended ≡ false }
    requires tasks { hand.old.view.olds ≡ old_wires tasks.now }
    requires counts { hand.old.view.counts ≡ prices.now.counts.items }
    requires playable { ArePlayable graph.now prices.now tasks.now }
    requires number { number < length tasks.now }
    requires new { IsNew number (own hand.old.view).claims }
    requires kit { IsBegun graph.now prices.now kit.old }
    ensures of { IsHandOf words.now hand.new }
    ensures done { OnOk result (AddsOne graph.now prices.now tasks.now number hand.old.view
        hand.new.view (made_by kit.old) (made_by kit.new)) }
    ensures stop { IfErr result (λ stop. Stops graph.now tasks.now number stop
        × (hand.new ≡ hand.old) × (made_by kit.new ≡ made_by kit.old)) }
    ensures kit { IsBegun graph.now prices.now kit.new }
{
    let task = &tasks[number as usize];
    gate.pass(worker, task.net);
    kit.trees.reserve(1)?;
    let tree = match task_tree(
        alloc,
        graph,
        prices,
        task,
        &mut kit.prices,
        &mut kit.scratch,
    ) {
        Ok(tree) => tree,
        Err(stop) => return Err(stop_of(number, stop)),
    };
    replace(words, hand, number, &task.old, &tree.wires);
    kit.trees.push_reserved((number, tree));
    Ok(())
}

// Claims tasks until none is left, and does each.
fn do_all<G: Gate>(
    alloc: Global,
    words: &Words,
    hand: &mut Hand,
    graph: &Graph,
    prices: &RoundPrices,
    tasks: &[Task],
    worker: u32,
    gate: &G,
    kit: &mut Kit,
) -> Result<(), WorkStop>
    requires of { IsHandOf words.now hand.old }
    requires fresh { IsFresh hand.old.view }
    requires tasks { hand.old.view.olds ≡ old_wires tasks.now }
    requires counts { hand.old.view.counts ≡ prices.now.counts.items }
    requires playable { ArePlayable graph.now prices.now tasks.now }
    requires kit { IsBegun graph.now prices.now kit.old }
    ensures of { IsHandOf words.now hand.new }
    ensures done { OnOk result (posted hand.new.view ≡ posted (with_own
        (λ p. done_part (claims_of hand.old.view.olds (made_by kit.new))) hand.old.view)) }
    ensures made { All (IsMade graph.now prices.now tasks.now) (made_by kit.new) }
    ensures falls { Falls (claims_of hand.old.view.olds (made_by kit.new)) }
    ensures stop { IfErr result
        (StopsAt graph.now tasks.now hand.old.view (posted hand.new.view) (made_by kit.new)) }
    ensures kit { IsBegun graph.now prices.now kit.new }
{
    kit.trees.clear();
    loop {
        let Some(number) = words.claim(hand) else {
            return Ok(());
        };
        if let Err(stop) = do_task(
            alloc, words, hand, graph, prices, tasks, number, worker, gate, kit,
        ) {
            return Err(stop);
        }
    }
}

/// Claims tasks until none is left, and does each: it passes the gate, makes the whole new tree, and only then releases all old wires and holds all new
/// ones, in order. The new tree is that of the task's net in the prices of the round, with the net's own old wires left out. At the end the hand's overuses
/// are posted, also where the worker stopped. The kit has the trees, and those of an earlier round no more.
///
/// The words were started on these tasks, and on the counts that `prices` holds, one for each wire of the graph, as well as one history. Root and targets of
/// each task are wires of the graph, each sink has a target, and the prices of the round for each task are within their bounds. The hand has claimed nothing
/// and was never answered None. The kit is of this graph.
///
/// It answers `Unreachable` with the task and the first target of its first sink to none of whose targets a walk leads from the root, exactly where a task
/// that it claims has one, and `NoMemory` where it finds no memory for a tree. Then that task is claimed and has its old route whole, the tasks of the kit's
/// trees have their new routes whole, and the worker claims no more.
pub fn work<G: Gate>(
    alloc: Global,
    words: &Words,
    hand: &mut Hand,
    graph: &Graph,
    prices: &RoundPrices,
    tasks: &[Task],
    worker: u32,
    gate: &G,
    kit: &mut Kit,
) -> Result<(), WorkStop>
    requires of { IsHandOf words.now hand.old }
    requires fresh { IsFresh hand.old.view }
    requires tasks { hand.old.view.olds ≡ old_wires tasks.now }
    requires counts { hand.old.view.counts ≡ prices.now.counts.items }
    requires playable { ArePlayable graph.now prices.now tasks.now }
    requires kit { IsKitOf graph.now kit.old }
    ensures of { IsHandOf words.now hand.new }
    ensures done { OnOk result (hand.new.view ≡ posted (with_own
        (λ p. done_part (claims_of hand.old.view.olds (made_by kit.new))) hand.old.view)) }
    ensures made { All (IsMade graph.now prices.now tasks.now) (made_by kit.new) }
    ensures falls { Falls (claims_of hand.old.view.olds (made_by kit.new)) }
    ensures stop { IfErr result
        (StopsAt graph.now tasks.now hand.old.view hand.new.view (made_by kit.new)) }
    ensures kit { IsKitOf graph.now kit.new }
{
    begin(&mut kit.prices, prices);
    let done = do_all(alloc, words, hand, graph, prices, tasks, worker, gate, kit);
    words.post(hand);
    done
}
