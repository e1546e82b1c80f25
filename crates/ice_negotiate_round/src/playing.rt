//! One round, task by task.
ghost use Rattle.std.specs.Prelude.{◌≡◌, ◌<◌, ◌≤◌, ℕ, length, All, IfOk, IfErr, vec_len};
ghost use Rattle.ice_words.specs.Grips.{IsHandOf};
ghost use Rattle.ice_worker.specs.Tasks.{IsMade, ArePlayable};
ghost use Rattle.ice_worker.specs.Kits.{IsKitOf, made_by};
ghost use Rattle.ice_negotiate_round.specs.Jobs.{AreStarted, HasWorked, IsWaiting, main_view};
ghost use Rattle.ice_negotiate_round.specs.Played.{AreTrees, IsLeft, IsPlayed, IsTaskStop, made_in, parts_of, sooner, soonest};
ghost use Rattle.ice_negotiate_round.specs.declared.jobs.Done.{Done as Left};

use crate::jobs::{Done, Job, gather, jobs_of, run_all};
use crate::placing::{empty_trees, place_all};
use ice_base::NoMemory;
use ice_core::{RoundPrices, Task};
use ice_desk::Gate;
use ice_graph::{Graph, Tree};
use ice_words::{Counts, Hand, Words};
use ice_worker::{Kit, WorkStop};
use std::alloc::Global;
use std::thread::Threads;

/// The new trees by task, the counts as the words were closed, and the workers' kits.
#[derive(Drop)]
pub struct Played {
    /// The new tree of each task, in order.
    pub news: Vec<Tree>,
    /// The counts at the end, and what was done.
    pub counts: Counts,
    /// The kits, for a further round.
    pub kits: Vec<Kit>,
}

/// Does all tasks in the prices of the round, on words that are shared by a worker for each kit, from 1 to 8, each in a thread. Trees, counts and the stop
/// don't depend on their number.
pub fn play_tasks<G: Gate + Sync, R: Threads + Sync>(
    rt: &R,
    alloc: Global,
    graph: &Graph,
    prices: &RoundPrices,
    tasks: &[Task],
    kits: Vec<Kit>,
    gate: &G,
) -> Result<Played, WorkStop>
    requires playable { ArePlayable graph.now prices.now tasks.now }
    requires workers { (1 ≤ vec_len kits) × (vec_len kits ≤ 8) }
    requires kits { All (IsKitOf graph.now) kits.items }
    ensures played { IfOk result (λ r.
        IsPlayed graph.now prices.now tasks.now r.news.items r.counts) }
    ensures many { IfOk result (λ r. vec_len r.kits ≡ vec_len kits) }
    ensures kits { IfOk result (λ r. All (IsKitOf graph.now) r.kits.items) }
    ensures stop { IfErr result (IsTaskStop graph.now tasks.now) }
{
    let (words, mut main) = Words::start(alloc, graph.wires(), tasks, &prices.counts)?;
    let jobs = jobs_of(alloc, graph, &words, &mut main, kits)?;
    let mut dones = Vec::with_capacity(alloc, jobs.len())?;
    let jobs = all_worked(rt, alloc, &words, graph, prices, tasks, gate, jobs);
    if gather(&words, &mut main, graph, prices, tasks, jobs, &mut dones).is_none() {
        return Err(WorkStop::NoMemory);
    }
    finish(alloc, words, main, graph, prices, tasks, dones)
}

// The jobs when all workers have worked.
fn all_worked<G: Gate + Sync, R: Threads + Sync>(
    rt: &R,
    alloc: Global,
    words: &Words,
    graph: &Graph,
    prices: &RoundPrices,
    tasks: &[Task],
    gate: &G,
    mut jobs: Vec<Job>,
) -> Vec<Job>
    requires some_of { 1 ≤ vec_len jobs }
    requires jobs { All (IsWaiting graph.now words.now) jobs.items }
    requires started { AreStarted graph.now prices.now tasks.now words.now }
    ensures many { vec_len result ≡ vec_len jobs }
    ensures jobs { All (HasWorked graph.now prices.now tasks.now words.now) result.items }
{
    run_all(rt, alloc, words, graph, prices, tasks, gate, &mut jobs);
    jobs
}

// Closes the words, and puts the trees at their tasks.
fn finish(
    alloc: Global,
    words: Words,
    main: Hand,
    graph: &Graph,
    prices: &RoundPrices,
    tasks: &[Task],
    dones: Vec<Done>,
) -> Result<Played, WorkStop>
    requires of { IsHandOf words main }
    requires view { main.view
        ≡ main_view words (vec_len dones) 0 (parts_of words.olds dones.items) }
    requires some_of { 1 ≤ vec_len dones }
    requires dones { All (IsLeft graph.now prices.now tasks.now words.olds) dones.items }
    requires started { AreStarted graph.now prices.now tasks.now words }
    ensures played { IfOk result (λ r.
        IsPlayed graph.now prices.now tasks.now r.news.items r.counts) }
    ensures many { IfOk result (λ r. vec_len r.kits ≡ vec_len dones) }
    ensures kits { IfOk result (λ r. All (IsKitOf graph.now) r.kits.items) }
    ensures stop { IfErr result (IsTaskStop graph.now tasks.now) }
{
    let counts = words.close(main);
    if let Some(stop) = least_stop(&dones) {
        return Err(stop);
    }
    let (news, kits) = placed(alloc, graph, prices, tasks, dones)?;
    Ok(Played { news, counts, kits })
}

// The trees, put at their tasks, and the kits.
fn placed(
    alloc: Global,
    graph: &Graph,
    prices: &RoundPrices,
    tasks: &[Task],
    dones: Vec<Done>,
) -> Result<(Vec<Tree>, Vec<Kit>), NoMemory>
    requires made { All
        (λ (d : Left). All (IsMade graph.now prices.now tasks.now) (made_by d.kit)) dones.items }
    requires kits { All (λ (d : Left). IsKitOf graph.now d.kit) dones.items }
    ensures trees { IfOk result (λ r. ((t : ℕ) → t < length tasks.now → 1 ≤ made_in t dones.items)
        → AreTrees graph.now prices.now tasks.now r.0.items) }
    ensures many { IfOk result (λ r. vec_len r.1 ≡ vec_len dones) }
    ensures kits { IfOk result (λ r. All (IsKitOf graph.now) r.1.items) }
{
    let mut news = empty_trees(alloc, tasks.len())?;
    let kits = place_all(alloc, graph, prices, tasks, &mut news, dones)?;
    Ok((news, kits))
}

// Of two reasons to stop the one at the lesser task.
fn sooner_of(best: Option<WorkStop>, stop: Option<WorkStop>) -> Option<WorkStop>
    ensures { result ≡ sooner best stop }
{
    match (best, stop) {
        (None, stop) => stop,
        (Some(WorkStop::NoMemory), _) => Some(WorkStop::NoMemory),
        (Some(best), None) => Some(best),
        (Some(_), Some(WorkStop::NoMemory)) => Some(WorkStop::NoMemory),
        (
            Some(WorkStop::Unreachable { task, sink }),
            Some(
                WorkStop::Unreachable {
                    task: other,
                    sink: cut,
                },
            ),
        ) => {
            if other < task {
                Some(WorkStop::Unreachable {
                    task: other,
                    sink: cut,
                })
            } else {
                Some(WorkStop::Unreachable { task, sink })
            }
        }
    }
}

// Of the stops the one at the least task.
fn least_stop(dones: &[Done]) -> Option<WorkStop>
    ensures { result ≡ soonest dones.now }
{
    let mut best = None;
    for done in dones {
        best = sooner_of(best, done.stop);
    }
    best
}
