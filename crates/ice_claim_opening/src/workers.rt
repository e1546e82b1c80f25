//! The workers of an opening: one alone with the main pass, or several in threads, each with a pass of its own.
ghost use Rattle.std.specs.Prelude.{◌≡◌, ◌+◌, ◌<◌, ◌≤◌, [], ◌∷◌, ℕ, length, All, IfOk, OnOk, vec_len};
ghost use Rattle.ice_core.specs.Routes.{lists_of};
ghost use Rattle.ice_claim.specs.Claims.{total, ends_of, first_view};
ghost use Rattle.ice_claim.specs.Grips.{IsPassOf};
ghost use Rattle.ice_claim.specs.Rule.{AreLists};
ghost use Rattle.ice_claim_opening.specs.Notes.{AreAllNotes, AreInTurn, AreNotes};
ghost use Rattle.ice_claim_opening.specs.Workers.{HasWorked, IsGathered, IsSplit, IsTableOf, IsWaiting};

use crate::notes::Note;
use crate::worker::keep_nets;
use ice_base::{NoMemory, WireNo};
use ice_claim::{ClaimTable, Pass};
use ice_desk::Gate;
use std::alloc::Global;
use std::thread;
use std::thread::Threads;

// A worker with its pass, and what it noted.
#[derive(Drop)]
pub struct Job {
    pub pass: Pass,
    pub notes: Vec<Note>,
    pub worker: u32,
}

// So many jobs, each with a pass of its own and room for notes on all nets.
fn jobs_of(
    alloc: Global,
    table: &ClaimTable,
    main: &mut Pass,
    nets: usize,
    workers: u32,
) -> Result<Vec<Job>, NoMemory>
    requires of { IsPassOf table.now main.old }
    requires main { IsSplit 0 main.old.view }
    requires nets { nets ≡ length table.now.lists }
    requires few { workers ≤ 8 }
    ensures of { IsPassOf table.now main.new }
    ensures many { IfOk result (λ v. vec_len v ≡ workers) }
    ensures main { IfOk result (λ v. IsSplit workers main.new.view) }
    ensures jobs { IfOk result (λ v. All (IsWaiting table.now) v.items) }
{
    let mut jobs = Vec::with_capacity(alloc, workers as usize)?;
    for worker in 0..workers {
        let notes = Vec::with_capacity(alloc, nets)?;
        jobs.push(Job {
            pass: table.split(main),
            notes,
            worker,
        })?;
    }
    Ok(jobs)
}

// One worker's work.
#[tactic(auto, using(crate::proofs::Keeping::worked, crate::proofs::Keeping::room_of))]
fn run<G: Gate>(table: &ClaimTable, lists: &[Vec<WireNo>], gate: &G, job: &mut Job)
    requires job { IsWaiting table.now job.old }
    requires lists { IsTableOf table.now (lists_of lists.now) }
    ensures { HasWorked table.now job.new }
{
    keep_nets(
        table,
        &mut job.pass,
        lists,
        job.worker,
        gate,
        &mut job.notes,
    );
}

// All workers' work, each in a thread of its own.
fn run_all<G: Gate + Sync, R: Threads + Sync>(
    rt: &R,
    table: &ClaimTable,
    lists: &[Vec<WireNo>],
    gate: &G,
    jobs: &mut [Job],
)
    requires some_of { 1 ≤ length jobs.old }
    requires jobs { All (IsWaiting table.now) jobs.old }
    requires lists { IsTableOf table.now (lists_of lists.now) }
    ensures { (length jobs.new ≡ length jobs.old) × All (HasWorked table.now) jobs.new }
{
    let threads = jobs.len();
    thread::for_each_mut(
        rt,
        jobs,
        threads,
        &|_i: usize, job: &mut Job|
            requires { IsWaiting table.now job.now × IsTableOf table.now (lists_of lists.now) }
            ensures { HasWorked table.entry.now job.exit.now }
        { run(table, lists, gate, job) },
    );
}

// Takes in all workers' passes and notes.
fn gather(
    table: &ClaimTable,
    main: &mut Pass,
    mut jobs: Vec<Job>,
    notes: &mut Vec<Note>,
) -> Result<(), NoMemory>
    requires of { IsPassOf table.now main.old }
    requires main { IsSplit (vec_len jobs) main.old.view }
    requires jobs { All (HasWorked table.now) jobs.items }
    requires some_of { 1 ≤ vec_len jobs }
    requires none { notes.old.items ≡ [] }
    ensures of { IsPassOf table.now main.new }
    ensures gathered { OnOk result (IsGathered table.now.lists 0 main.new.view notes.new.items) }
    ensures ended { OnOk result (1 ≤ total ends_of main.new.view) }
{
    while let Some(job) = jobs.pop() {
        let Job {
            pass,
            notes: more,
            worker: _,
        } = job;
        table.join(main, pass);
        notes.extend_from_slice(&more)?;
    }
    Ok(())
}

// Several workers' work.
fn work_together<G: Gate + Sync, R: Threads + Sync>(
    rt: &R,
    alloc: Global,
    table: &ClaimTable,
    main: &mut Pass,
    lists: &[Vec<WireNo>],
    workers: u32,
    gate: &G,
    notes: &mut Vec<Note>,
) -> Result<(), NoMemory>
    requires of { IsPassOf table.now main.old }
    requires lists { IsTableOf table.now (lists_of lists.now) }
    requires main { IsSplit 0 main.old.view }
    requires workers { (1 ≤ workers) × (workers ≤ 8) }
    requires none { notes.old.items ≡ [] }
    ensures of { IsPassOf table.now main.new }
    ensures gathered { OnOk result (IsGathered table.now.lists 0 main.new.view notes.new.items) }
    ensures ended { OnOk result (1 ≤ total ends_of main.new.view) }
{
    let mut jobs = jobs_of(alloc, table, main, lists.len(), workers)?;
    run_all(rt, table, lists, gate, &mut jobs);
    gather(table, main, jobs, notes)
}

// The work of one worker or several. One makes its steps by the main pass itself, so that nothing is left to a schedule.
#[tactic(auto, using(crate::proofs::Keeping::gathered_alone, crate::proofs::Keeping::ended_some, crate::proofs::Keeping::lone_split))]
fn work_by<G: Gate + Sync, R: Threads + Sync>(
    rt: &R,
    alloc: Global,
    table: &ClaimTable,
    main: &mut Pass,
    lists: &[Vec<WireNo>],
    workers: u32,
    gate: &G,
    notes: &mut Vec<Note>,
) -> Result<(), NoMemory>
    requires of { IsPassOf table.now main.old }
    requires lists { IsTableOf table.now (lists_of lists.now) }
    requires main { IsSplit 0 main.old.view }
    requires workers { (1 ≤ workers) × (workers ≤ 8) }
    requires none { notes.old.items ≡ [] }
    ensures of { IsPassOf table.now main.new }
    ensures gathered { OnOk result (IsGathered table.now.lists 0 main.new.view notes.new.items) }
    ensures ended { OnOk result (1 ≤ total ends_of main.new.view) }
    ensures turn { OnOk result (workers ≡ 1 → AreInTurn table.now.lists notes.new.items) }
{
    if workers == 1 {
        notes.reserve(lists.len())?;
        keep_nets(table, main, lists, 0, gate, notes);
        return Ok(());
    }
    work_together(rt, alloc, table, main, lists, workers, gate, notes)
}

// What so many workers note of all nets of these lists.
pub fn notes_by<G: Gate + Sync, R: Threads + Sync>(
    rt: &R,
    alloc: Global,
    wires: u32,
    lists: &[Vec<WireNo>],
    workers: u32,
    gate: &G,
) -> Result<Vec<Note>, NoMemory>
    requires lists { AreLists wires (lists_of lists.now) }
    requires workers { (1 ≤ workers) × (workers ≤ 8) }
    ensures { IfOk result (λ notes. AreAllNotes (lists_of lists.now) workers notes.items) }
{
    let (table, mut main) = ClaimTable::start(alloc, wires, lists)?;
    let mut notes = Vec::new(alloc);
    work_by(
        rt, alloc, &table, &mut main, lists, workers, gate, &mut notes,
    )?;
    let _takes = table.close(main);
    Ok(notes)
}
