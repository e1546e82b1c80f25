//! How far a worker of the core is.
ghost use Rattle.std.specs.Prelude.{◌≡◌, ◌+◌, ◌<◌, ◌≤◌, ◌-◌, ◌^◌, ◌↔◌, [], ◌∷◌, ℕ, List, false, length, drop, slice_get, Some, IfOk, IfSome, IfNone, IsTrue, if◌then◌else◌};
ghost use Rattle.ice_core.specs.Machine.{MayClaim, MayRelease, MayHold, claiming, releasing, holding, posting};
ghost use Rattle.ice_core.specs.Program.{IsFresh, HasRoom, worker_by};
ghost use Rattle.ice_core.specs.Routes.{lists_of, wires_of};

use ice_base::{NoMemory, WireNo};
use std::alloc::Global;

// What a worker has done, and how far it is with its newest task.
#[derive(Drop)]
pub struct Progress {
    // The tasks that it claimed, in order.
    pub claimed: Vec<u32>,
    // The newest of them; the number of tasks where there is none.
    pub task: u32,
    // How many old wires of the newest task it has released.
    pub released: usize,
    // How many new wires of the newest task it has held.
    pub held: usize,
    // Whether it was given a number past the tasks.
    pub ended: bool,
    // How many overuses came by it that it hasn't posted.
    pub up: u64,
    // How many overuses went by it that it hasn't posted.
    pub down: u64,
}

// The wire that comes behind the first so many.
fn wire_at(wires: &[WireNo], done: usize) -> Option<WireNo>
    ensures some { IfSome result (λ wire. slice_get wires.now done ≡ Some wire) }
    ensures none { IfNone result (length wires.now ≤ done) }
{
    wires.get(done).copied()
}

// The wire of a task's list that comes behind the first so many.
fn wire_behind(lists: &[Vec<WireNo>], task: u32, done: usize) -> Option<WireNo>
    ensures some { IfSome result (λ wire.
        (rest : List ℕ) × (drop done (wires_of (lists_of lists.now) task) ≡ wire.0 ∷ rest)) }
    ensures none { IfNone result (drop done (wires_of (lists_of lists.now) task) ≡ []) }
{
    match lists.get(task as usize) {
        Some(wires) => wire_at(wires, done),
        None => None,
    }
}

impl Progress {
    // The progress of a worker that has done nothing, with room for so many tasks.
    pub fn of_none(alloc: Global, tasks: u32) -> Result<Progress, NoMemory>
        ensures { IfOk result (λ progress. IsFresh tasks progress) }
    {
        Ok(Progress {
            claimed: Vec::with_capacity(alloc, tasks as usize)?,
            task: tasks,
            released: 0,
            held: 0,
            ended: false,
            up: 0,
            down: 0,
        })
    }

    // The worker may draw a number.
    pub fn may_claim(&self, olds: &[Vec<WireNo>], news: &[Vec<WireNo>]) -> bool
        ensures { IsTrue result
            ↔ MayClaim (worker_by (lists_of olds.now) (lists_of news.now) self.now) }
    {
        !self.ended
            && wire_behind(olds, self.task, self.released).is_none()
            && wire_behind(news, self.task, self.held).is_none()
    }

    // The worker may release the wire.
    pub fn may_release(&self, olds: &[Vec<WireNo>], wire: WireNo) -> bool
        ensures { (news : List (List ℕ))
            → IsTrue result ↔ MayRelease wire.0 (worker_by (lists_of olds.now) news self.now) }
    {
        match wire_behind(olds, self.task, self.released) {
            Some(next) => next.0 == wire.0,
            None => false,
        }
    }

    // The worker may hold the wire.
    pub fn may_hold(&self, olds: &[Vec<WireNo>], news: &[Vec<WireNo>], wire: WireNo) -> bool
        ensures { IsTrue result
            ↔ MayHold wire.0 (worker_by (lists_of olds.now) (lists_of news.now) self.now) }
    {
        if wire_behind(olds, self.task, self.released).is_some() {
            return false;
        }
        match wire_behind(news, self.task, self.held) {
            Some(next) => next.0 == wire.0,
            None => false,
        }
    }

    // The worker drew a number, which is that of a task where it is below their number.
    pub fn claim(&mut self, number: u32, tasks: u32)
        requires going { self.old.ended ≡ false }
        requires room { HasRoom (tasks - number) self.old }
        ensures worker { (olds news : List (List ℕ)) → length olds ≡ tasks
            → worker_by olds news self.new
            ≡ claiming olds news number (worker_by olds news self.old) }
        ensures room { HasRoom (tasks - (number + 1)) self.new }
    {
        if number < tasks {
            self.claimed.push_reserved(number);
            self.task = number;
            self.released = 0;
            self.held = 0;
        } else {
            self.ended = true;
        }
    }

    // The worker released the next old wire, whose count was this.
    pub fn release(&mut self, count: u64)
        requires { (self.old.released < 2 ^ 63) × (self.old.down < 2 ^ 63) }
        ensures worker { (olds news : List (List ℕ))
            → worker_by olds news self.new ≡ releasing count (worker_by olds news self.old) }
        ensures room { (n : ℕ) → HasRoom n self.old → HasRoom n self.new }
    {
        self.released += 1;
        if count >= 2 {
            self.down += 1;
        }
    }

    // The worker held the next new wire, whose count was this.
    pub fn hold(&mut self, count: u64)
        requires { (self.old.held < 2 ^ 63) × (self.old.up < 2 ^ 63) }
        ensures worker { (olds news : List (List ℕ))
            → worker_by olds news self.new ≡ holding count (worker_by olds news self.old) }
        ensures room { (n : ℕ) → HasRoom n self.old → HasRoom n self.new }
    {
        self.held += 1;
        if count >= 1 {
            self.up += 1;
        }
    }

    // The worker posts one of its numbers, which this gives.
    pub fn post(&mut self, up: bool) -> u64
        ensures worker { (olds news : List (List ℕ))
            → worker_by olds news self.new ≡ posting up (worker_by olds news self.old) }
        ensures number { result ≡ (if up then self.old.up else self.old.down) }
        ensures room { (n : ℕ) → HasRoom n self.old → HasRoom n self.new }
    {
        let posted;
        if up {
            posted = self.up;
            self.up = 0;
        } else {
            posted = self.down;
            self.down = 0;
        }
        posted
    }
}
