//! The trees that workers made, by task.
ghost use Rattle.std.specs.Prelude.{◌≡◌, ◌+◌, ◌≤◌, ℕ, length, All, IfOk, vec_len, cond, nat_eq};
ghost use Rattle.ice_worker.specs.Tasks.{IsMade};
ghost use Rattle.ice_worker.specs.Kits.{IsKitOf, made_by};
ghost use Rattle.ice_negotiate_round.specs.Played.{Covers, made_at, made_in};
ghost use Rattle.ice_negotiate_round.specs.declared.jobs.Done.{Done as Left};

use crate::jobs::Done;
use ice_base::NoMemory;
use ice_core::{RoundPrices, Task};
use ice_graph::{Graph, Tree};
use ice_worker::Kit;
use std::alloc::Global;

// So many empty trees.
pub fn empty_trees(alloc: Global, tasks: usize) -> Result<Vec<Tree>, NoMemory>
    ensures { IfOk result (λ v. vec_len v ≡ tasks) }
{
    let mut trees = Vec::with_capacity(alloc, tasks)?;
    for _task in 0..tasks {
        trees.push(Tree {
            wires: Vec::new(alloc),
            rows: Vec::new(alloc),
        })?;
    }
    Ok(trees)
}

// Puts a tree at its task.
fn place_one(
    graph: &Graph,
    prices: &RoundPrices,
    tasks: &[Task],
    news: &mut [Tree],
    made: (u32, Tree),
)
    requires long { length news.old ≡ length tasks.now }
    requires made { IsMade graph.now prices.now tasks.now made }
    ensures long { length news.new ≡ length news.old }
    ensures covers { (wanted : ℕ → ℕ)
        → Covers graph.now prices.now tasks.now
        (λ t. cond (nat_eq made.0 t) 1 0 + wanted t) news.old
        → Covers graph.now prices.now tasks.now wanted news.new }
{
    let (_graph, _prices, _tasks) = (graph, prices, tasks);
    let (number, tree) = made;
    news[number as usize] = tree;
}

// Puts the trees of one worker at their tasks.
fn place_some(
    graph: &Graph,
    prices: &RoundPrices,
    tasks: &[Task],
    news: &mut [Tree],
    mut trees: Vec<(u32, Tree)>,
)
    requires long { length news.old ≡ length tasks.now }
    requires made { All (IsMade graph.now prices.now tasks.now) trees.items }
    ensures long { length news.new ≡ length news.old }
    ensures covers { (wanted : ℕ → ℕ)
        → Covers graph.now prices.now tasks.now (λ t. made_at t trees.items + wanted t) news.old
        → Covers graph.now prices.now tasks.now wanted news.new }
{
    while let Some(made) = trees.pop() {
        place_one(graph, prices, tasks, news, made);
    }
}

// Puts the trees of all workers at their tasks, and gives back their kits.
pub fn place_all(
    alloc: Global,
    graph: &Graph,
    prices: &RoundPrices,
    tasks: &[Task],
    news: &mut [Tree],
    mut dones: Vec<Done>,
) -> Result<Vec<Kit>, NoMemory>
    requires long { length news.old ≡ length tasks.now }
    requires made { All
        (λ (d : Left). All (IsMade graph.now prices.now tasks.now) (made_by d.kit)) dones.items }
    requires kits { All (λ (d : Left). IsKitOf graph.now d.kit) dones.items }
    ensures long { length news.new ≡ length news.old }
    ensures covers { IfOk result (λ _.
        Covers graph.now prices.now tasks.now (λ t. made_in t dones.items) news.old
        → Covers graph.now prices.now tasks.now (λ t. 0) news.new) }
    ensures many { IfOk result (λ kits. vec_len kits ≡ vec_len dones) }
    ensures kits { IfOk result (λ kits. All (IsKitOf graph.now) kits.items) }
{
    let mut kits = Vec::with_capacity(alloc, dones.len())?;
    while let Some(done) = dones.pop() {
        let Done { mut kit, stop: _ } = done;
        let trees = kit.take_trees(alloc);
        place_some(graph, prices, tasks, news, trees);
        kits.push(kit)?;
    }
    Ok(kits)
}
