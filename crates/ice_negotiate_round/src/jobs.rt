//! Workers in threads: each has a hand on the words of the round, and a kit.
ghost use Rattle.std.specs.Prelude.{◌≡◌, ◌≢◌, ◌+◌, ◌<◌, ◌≤◌, [], ℕ, None, Some, length, All, IfOk, IfSome, false, vec_len, vec_capacity};
ghost use Rattle.ice_words.specs.Grips.{IsHandOf};
ghost use Rattle.ice_worker.specs.Kits.{IsKitOf};
ghost use Rattle.ice_worker.specs.declared.stop.WorkStop.TheVariants.{NoMemory as Memory};
ghost use Rattle.ice_negotiate_round.specs.Jobs.{AreStarted, HasWorked, IsWaiting, main_view};
ghost use Rattle.ice_negotiate_round.specs.Played.{IsLeft, parts_of};

use ice_base::NoMemory;
use ice_core::{RoundPrices, Task};
use ice_desk::Gate;
use ice_graph::Graph;
use ice_words::{Hand, Words};
use ice_worker::{Kit, WorkStop, work};
use std::alloc::Global;
use std::thread;
use std::thread::Threads;

// A worker with its hand and kit, and why it stopped, if it did.
#[derive(Drop)]
pub struct Job {
    pub hand: Hand,
    pub kit: Kit,
    pub worker: u32,
    pub stop: Option<WorkStop>,
}

// A job for each kit, with a hand of its own.
pub fn jobs_of(
    alloc: Global,
    graph: &Graph,
    words: &Words,
    main: &mut Hand,
    mut kits: Vec<Kit>,
) -> Result<Vec<Job>, NoMemory>
    requires of { IsHandOf words.now main.old }
    requires main { main.old.view ≡ main_view words.now 0 0 [] }
    requires few { vec_len kits ≤ 8 }
    requires kits { All (IsKitOf graph.now) kits.items }
    ensures of { IsHandOf words.now main.new }
    ensures many { IfOk result (λ v. vec_len v ≡ vec_len kits) }
    ensures main { IfOk result (λ v.
        main.new.view ≡ main_view words.now (vec_len v) (vec_len v) []) }
    ensures jobs { IfOk result (λ v. All (IsWaiting graph.now words.now) v.items) }
{
    let _graph = graph;
    let mut jobs = Vec::with_capacity(alloc, kits.len())?;
    while let Some(kit) = kits.pop() {
        let worker = jobs.len() as u32;
        jobs.push(Job {
            hand: words.split(main),
            kit,
            worker,
            stop: None,
        })?;
    }
    Ok(jobs)
}

// One worker's work.
fn run<G: Gate>(
    alloc: Global,
    words: &Words,
    graph: &Graph,
    prices: &RoundPrices,
    tasks: &[Task],
    gate: &G,
    job: &mut Job,
)
    requires job { IsWaiting graph.now words.now job.old }
    requires started { AreStarted graph.now prices.now tasks.now words.now }
    ensures { HasWorked graph.now prices.now tasks.now words.now job.new }
{
    job.stop = work(
        alloc,
        words,
        &mut job.hand,
        graph,
        prices,
        tasks,
        job.worker,
        gate,
        &mut job.kit,
    )
    .err();
}

// In how many threads so many workers do so many tasks. More threads than tasks would find nothing to do.
fn threads_of(workers: usize, tasks: usize) -> usize
    requires { 1 ≤ workers }
    ensures { 0 < result }
{
    workers.min(tasks.max(1))
}

// All workers' work, each in a thread of its own while there are tasks for it.
pub fn run_all<G: Gate + Sync, R: Threads + Sync>(
    rt: &R,
    alloc: Global,
    words: &Words,
    graph: &Graph,
    prices: &RoundPrices,
    tasks: &[Task],
    gate: &G,
    jobs: &mut [Job],
)
    requires some_of { 1 ≤ length jobs.old }
    requires jobs { All (IsWaiting graph.now words.now) jobs.old }
    requires started { AreStarted graph.now prices.now tasks.now words.now }
    ensures { (length jobs.new ≡ length jobs.old)
        × All (HasWorked graph.now prices.now tasks.now words.now) jobs.new }
{
    let threads = threads_of(jobs.len(), tasks.len());
    thread::for_each_mut(
        rt,
        jobs,
        threads,
        &|_i: usize, job: &mut Job|
            requires { IsWaiting graph.now words.now job.now
                × AreStarted graph.now prices.now tasks.now words.now }
            ensures { HasWorked graph.entry.now prices.entry.now tasks.entry.now
                words.entry.now job.exit.now }
        { run(alloc, words, graph, prices, tasks, gate, job) },
    );
}

// What a worker leaves: a kit with its trees, and why it stopped, if it did.
#[derive(Drop)]
pub struct Done {
    pub kit: Kit,
    pub stop: Option<WorkStop>,
}

// Takes in one worker's hand.
fn take_in(
    words: &Words,
    main: &mut Hand,
    graph: &Graph,
    prices: &RoundPrices,
    tasks: &[Task],
    job: Job,
    dones: &mut Vec<Done>,
)
    requires of { IsHandOf words.now main.old }
    requires main { main.old.view.main ≡ 1 }
    requires room { vec_len dones.old < vec_capacity dones.old }
    requires job { HasWorked graph.now prices.now tasks.now words.now job }
    requires memory { job.stop ≢ Some Memory }
    requires dones { All (IsLeft graph.now prices.now tasks.now words.now.olds) dones.old.items }
    ensures of { IsHandOf words.now main.new }
    ensures view { (splits out : ℕ)
        → main.old.view
        ≡ main_view words.now splits (out + 1) (parts_of words.now.olds dones.old.items)
        → main.new.view ≡ main_view words.now splits out (parts_of words.now.olds dones.new.items) }
    ensures dones { All (IsLeft graph.now prices.now tasks.now words.now.olds) dones.new.items }
    ensures len { vec_len dones.new ≡ vec_len dones.old + 1 }
    ensures room { vec_capacity dones.new ≡ vec_capacity dones.old }
{
    let (_graph, _prices, _tasks) = (graph, prices, tasks);
    let Job {
        hand,
        kit,
        worker: _,
        stop,
    } = job;
    words.join(main, hand);
    dones.push_reserved(Done { kit, stop });
}

// Takes in all workers' hands. None where a worker had no memory.
pub fn gather(
    words: &Words,
    main: &mut Hand,
    graph: &Graph,
    prices: &RoundPrices,
    tasks: &[Task],
    mut jobs: Vec<Job>,
    dones: &mut Vec<Done>,
) -> Option<()>
    requires of { IsHandOf words.now main.old }
    requires main { main.old.view ≡ main_view words.now (vec_len jobs) (vec_len jobs) [] }
    requires room { vec_len jobs ≤ vec_capacity dones.old }
    requires jobs { All (HasWorked graph.now prices.now tasks.now words.now) jobs.items }
    requires none { dones.old.items ≡ [] }
    ensures of { IsHandOf words.now main.new }
    ensures view { IfSome result (λ _. main.new.view
        ≡ main_view words.now (vec_len jobs) 0 (parts_of words.now.olds dones.new.items)) }
    ensures dones { All (IsLeft graph.now prices.now tasks.now words.now.olds) dones.new.items }
    ensures len { IfSome result (λ _. vec_len dones.new ≡ vec_len jobs) }
{
    while let Some(job) = jobs.pop() {
        if is_memory(&job.stop) {
            return None;
        }
        take_in(words, main, graph, prices, tasks, job, dones);
    }
    Some(())
}

// Whether a worker stopped for want of memory.
fn is_memory(stop: &Option<WorkStop>) -> bool
    ensures { result ≡ false → stop.now ≢ Some Memory }
{
    matches!(stop, Some(WorkStop::NoMemory))
}
