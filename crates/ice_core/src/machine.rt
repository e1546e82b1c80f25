//! The core as a program: workers do their events one at a time, on counts of their own.
ghost use Rattle.std.specs.Prelude.{◌≡◌, ◌+◌, ◌<◌, ◌≤◌, ◌↔◌, ℕ, Some, true, false, length, map, slice_get, slice_index, IfOk, IsTrue};
ghost use Rattle.std.specs.List.{AllByRecursion};
ghost use Rattle.ice_core.specs.declared.event.Event.TheVariants.{Claim, Release, Hold, Post};
ghost use Rattle.ice_core.specs.Machine.{Worker, MayClaim, MayRelease, MayHold, Allowed, next, IsStart};
ghost use Rattle.ice_core.specs.Program.{Moment, IsFresh, IsRunning, moment_of, worker_by};
ghost use Rattle.ice_core.specs.Routes.{lists_of, old_wires, tree_wires, IsOpening, AreNews};

use crate::copies::{old_routes, tree_routes};
use crate::event::Event;
use crate::progress::Progress;
use crate::task::Task;
use ice_base::{NoMemory, WireNo};
use ice_graph::Tree;
use std::alloc::Global;
use std::marker::Model;

/// What the workers of a round share and how far each of them is: the number that is drawn next, a count for each wire, the overuses that
/// were posted, and the workers. An event changes it, where it is allowed. None of the calls but `start` takes memory.
#[derive(Drop)]
pub struct Core {
    olds: Vec<Vec<WireNo>>,
    news: Vec<Vec<WireNo>>,
    number: u32,
    counts: Vec<u64>,
    up: u64,
    down: u64,
    workers: Vec<Progress>,
}

impl Model for Core {
    ghost Value = { Moment };

    ghost view = { λ c. moment_of (lists_of c.olds.items) (lists_of c.news.items) c.number
        c.counts.items c.up c.down c.workers.items };

    ghost invariant = { λ c. IsRunning
        (moment_of (lists_of c.olds.items) (lists_of c.news.items) c.number c.counts.items c.up
        c.down c.workers.items)
        c.workers.items };
}

// The counts, as the core keeps them.
fn counts_of(alloc: Global, counts: &[u32]) -> Result<Vec<u64>, NoMemory>
    ensures { IfOk result (λ copies. copies.items ≡ counts.now) }
{
    let mut copies = Vec::with_capacity(alloc, counts.len())?;
    for count in counts {
        copies.push(u64::from(*count))?;
    }
    Ok(copies)
}

// As many workers, none of which has done anything.
#[tactic(auto, using(crate::proofs::Running::fresh_push))]
fn workers_of(alloc: Global, workers: u32, tasks: u32) -> Result<Vec<Progress>, NoMemory>
    ensures each { IfOk result (λ all. AllByRecursion (IsFresh tasks) all.items) }
    ensures long { IfOk result (λ all. length all.items ≡ workers) }
{
    let mut all = Vec::with_capacity(alloc, workers as usize)?;
    for _worker in 0..workers {
        all.push(Progress::of_none(alloc, tasks)?)?;
    }
    Ok(all)
}

// The worker is one of these and may draw a number.
fn may_claim(olds: &[Vec<WireNo>], news: &[Vec<WireNo>], workers: &[Progress], worker: u32) -> bool
    ensures { IsTrue result
        ↔ ((u : Worker)
        × (slice_get (map (worker_by (lists_of olds.now) (lists_of news.now)) workers.now) worker
        ≡ Some u)
        × MayClaim u) }
{
    match workers.get(worker as usize) {
        Some(progress) => progress.may_claim(olds, news),
        None => false,
    }
}

// The worker is one of these and may release the wire.
fn may_release(
    olds: &[Vec<WireNo>],
    news: &[Vec<WireNo>],
    workers: &[Progress],
    worker: u32,
    wire: WireNo,
) -> bool
    ensures { IsTrue result
        ↔ ((u : Worker)
        × (slice_get (map (worker_by (lists_of olds.now) (lists_of news.now)) workers.now) worker
        ≡ Some u)
        × MayRelease wire.0 u) }
{
    match workers.get(worker as usize) {
        Some(progress) => progress.may_release(olds, wire),
        None => false,
    }
}

// The worker is one of these and may hold the wire.
fn may_hold(
    olds: &[Vec<WireNo>],
    news: &[Vec<WireNo>],
    workers: &[Progress],
    worker: u32,
    wire: WireNo,
) -> bool
    ensures { IsTrue result
        ↔ ((u : Worker)
        × (slice_get (map (worker_by (lists_of olds.now) (lists_of news.now)) workers.now) worker
        ≡ Some u)
        × MayHold wire.0 u) }
{
    match workers.get(worker as usize) {
        Some(progress) => progress.may_hold(olds, news, wire),
        None => false,
    }
}

// The worker is one of these.
fn may_post(olds: &[Vec<WireNo>], news: &[Vec<WireNo>], workers: &[Progress], worker: u32) -> bool
    ensures { IsTrue result
        ↔ ((u : Worker)
        × (slice_get (map (worker_by (lists_of olds.now) (lists_of news.now)) workers.now) worker
        ≡ Some u)) }
{
    let (_olds, _news) = (olds, news);
    match workers.get(worker as usize) {
        Some(_progress) => true,
        None => false,
    }
}

impl Core {
    /// The core at the start of a round, for 1 to 8 workers. There are at most 65,536 tasks, and `news` has the new route of each of them.
    /// `counts` has the count of each wire, at most 65,536 and at least the number of tasks that have the wire as an old one. All wires of
    /// the tasks and trees have a count, and none stands twice in a list. It answers `NoMemory` where it finds no memory for its lists.
    pub fn start(
        alloc: Global,
        tasks: &[Task],
        news: &[Tree],
        counts: &[u32],
        workers: u32,
    ) -> Result<Core, NoMemory>
        requires workers { (1 ≤ workers) × (workers ≤ 8) }
        requires opening { IsOpening (old_wires tasks.now) counts.now }
        requires news { AreNews (old_wires tasks.now) (tree_wires news.now) (length counts.now) }
        ensures olds { IfOk result (λ core. core.olds ≡ old_wires tasks.now) }
        ensures news { IfOk result (λ core. core.news ≡ tree_wires news.now) }
        ensures start { IfOk result (λ core. IsStart counts.now core.state) }
        ensures workers { IfOk result (λ core. length core.state.workers ≡ workers) }
    {
        let all = workers_of(alloc, workers, tasks.len() as u32)?;
        let olds = old_routes(alloc, tasks)?;
        let news = tree_routes(alloc, news)?;
        Ok(Core {
            olds,
            news,
            number: 0,
            counts: counts_of(alloc, counts)?,
            up: 0,
            down: 0,
            workers: all,
        })
    }

    /// Whether the event may happen now.
    pub fn may(&self, event: &Event) -> bool
        ensures { IsTrue result ↔ Allowed self.now.state event.now }
    {
        match *event {
            Event::Claim { worker } => may_claim(&self.olds, &self.news, &self.workers, worker),
            Event::Release { worker, wire } => may_release(
                &self.olds,
                &self.news,
                &self.workers,
                worker,
                wire,
            ),
            Event::Hold { worker, wire } => may_hold(
                &self.olds,
                &self.news,
                &self.workers,
                worker,
                wire,
            ),
            Event::Post { worker, .. } => may_post(&self.olds, &self.news, &self.workers, worker),
        }
    }

    // A worker draws a number.
    fn claim(&mut self, worker: u32)
        requires { Allowed self.old.state (Claim worker) }
        ensures olds { self.new.olds ≡ self.old.olds }
        ensures news { self.new.news ≡ self.old.news }
        ensures state { self.new.state
            ≡ next self.old.olds self.old.news self.old.state (Claim worker) }
    {
        let tasks = self.olds.len() as u32;
        self.workers[worker as usize].claim(self.number, tasks);
        self.number += 1;
    }

    // A worker releases a wire.
    fn release(&mut self, worker: u32, wire: WireNo)
        requires { Allowed self.old.state (Release worker wire) }
        ensures olds { self.new.olds ≡ self.old.olds }
        ensures news { self.new.news ≡ self.old.news }
        ensures state { self.new.state
            ≡ next self.old.olds self.old.news self.old.state (Release worker wire) }
    {
        let count = self.counts[wire.0 as usize];
        self.counts[wire.0 as usize] = count.saturating_sub(1);
        self.workers[worker as usize].release(count);
    }

    // A worker holds a wire.
    fn hold(&mut self, worker: u32, wire: WireNo)
        requires { Allowed self.old.state (Hold worker wire) }
        ensures olds { self.new.olds ≡ self.old.olds }
        ensures news { self.new.news ≡ self.old.news }
        ensures state { self.new.state
            ≡ next self.old.olds self.old.news self.old.state (Hold worker wire) }
    {
        let count = self.counts[wire.0 as usize];
        self.counts[wire.0 as usize] = count + 1;
        self.workers[worker as usize].hold(count);
    }

    // A worker posts the overuses that came by it.
    fn post_up(&mut self, worker: u32)
        requires { Allowed self.old.state (Post worker true) }
        ensures olds { self.new.olds ≡ self.old.olds }
        ensures news { self.new.news ≡ self.old.news }
        ensures state { self.new.state
            ≡ next self.old.olds self.old.news self.old.state (Post worker true) }
    {
        let posted = self.workers[worker as usize].post(true);
        self.up += posted;
    }

    // A worker posts the overuses that went by it.
    fn post_down(&mut self, worker: u32)
        requires { Allowed self.old.state (Post worker false) }
        ensures olds { self.new.olds ≡ self.old.olds }
        ensures news { self.new.news ≡ self.old.news }
        ensures state { self.new.state
            ≡ next self.old.olds self.old.news self.old.state (Post worker false) }
    {
        let posted = self.workers[worker as usize].post(false);
        self.down += posted;
    }

    /// Does the event, which may happen now.
    pub fn step(&mut self, event: Event)
        requires { Allowed self.old.state event }
        ensures olds { self.new.olds ≡ self.old.olds }
        ensures news { self.new.news ≡ self.old.news }
        ensures state { self.new.state ≡ next self.old.olds self.old.news self.old.state event }
    {
        match event {
            Event::Claim { worker } => self.claim(worker),
            Event::Release { worker, wire } => self.release(worker, wire),
            Event::Hold { worker, wire } => self.hold(worker, wire),
            Event::Post { worker, up: true } => self.post_up(worker),
            Event::Post { worker, up: false } => self.post_down(worker),
        }
    }

    /// The count of a wire.
    pub fn count(&self, wire: WireNo) -> u64
        requires { wire.0 < length self.now.state.counts }
        ensures { result ≡ slice_index self.now.state.counts wire.0 }
    {
        self.counts[wire.0 as usize]
    }
}
