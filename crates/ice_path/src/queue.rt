//! The queue of open wires, the least sum of label and bound first.
ghost use Rattle.std.specs.Prelude.{◌≡◌, ◌+◌, ◌<◌, ◌≤◌, ℕ, [], ◌∷◌, ◌++◌, List, Option, length, slice_index, slice_set, true, OnSome, IfOk, IfSome, IfNone, Some, vec_capacity};
ghost use Rattle.std.specs.BinaryHeap.{IsHeap, IsUpperBound, heap_items, heap_len, heap_capacity};
ghost use Rattle.std.specs.List.{All, Contains};
ghost use Rattle.std.specs.List.Sorted.{IsPermutation};
ghost use Rattle.ice_path.specs.Aims.{bound_in};
ghost use Rattle.ice_path.specs.Queue.{Adds, AreLists, Entry, IsEmpty, IsFirstFar, IsFirstListed, IsFirstOpen, IsQueue, LeadDown, Listed, OnList, Waits, queue_len, sooner, entry, done};
ghost use Rattle.ice_path.specs.Search.{IsLeastOpen, Queues};

use crate::aim::Aim;
use ice_base::NoMemory;
use ice_graph::Graph;
use std::alloc::Global;
use std::cmp::Reverse;
use std::collections::BinaryHeap;

/// A wire that waits in a list, and the place of the entry behind it: its number and one more, or 0 where the list
/// ends.
#[derive(Clone, Copy)]
pub struct Waiting {
    /// The wire.
    pub wire: u32,
    /// Where the list goes on.
    pub behind: usize,
}

/// A heap of sums with their wires, the least sum first.
pub type Far = BinaryHeap<(Reverse<u64>, u32)>;

/// Wires that wait under sums of label and bound: in a list for each sum below 1,024, and in a heap for the others.
#[derive(Drop)]
pub struct Queue {
    /// Where the list of each low sum begins, as in `Waiting`.
    pub heads: Vec<usize>,
    /// The entries of all lists.
    pub entries: Vec<Waiting>,
    /// Below this sum the lists have none but settled wires.
    pub low: usize,
    /// The entries of higher sums.
    pub far: Far,
    /// How many entries have room.
    pub room: usize,
}

// The heads of this many lists that don't begin anywhere.
fn no_heads(alloc: Global, sums: usize) -> Result<Vec<usize>, NoMemory>
    ensures long { IfOk result (λ heads. length heads.items ≡ sums) }
    ensures none { IfOk result (λ heads. (s : ℕ) → slice_index heads.items s ≡ 0) }
{
    let heads = vec![in alloc; 0usize; sums]?;
    Ok(heads)
}

/// An empty queue with room for this many entries. It answers `NoMemory` where it finds none.
#[tactic(auto, using(crate::proofs::Listing::lists_none, crate::proofs::Listing::none_high))]
pub fn queue_for(alloc: Global, room: usize) -> Result<Queue, NoMemory>
    ensures order { IfOk result IsQueue }
    ensures empty { IfOk result IsEmpty }
    ensures len { IfOk result (λ q. queue_len q ≡ 0) }
    ensures room { IfOk result (λ q. q.room ≡ room) }
{
    let heads = no_heads(alloc, 1024)?;
    let entries = Vec::with_capacity(alloc, room)?;
    let far = BinaryHeap::with_capacity(alloc, room)?;
    Ok(Queue {
        heads,
        entries,
        low: 1024,
        far,
        room,
    })
}

// Puts the wire into the list of this sum.
#[tactic(auto, using(crate::proofs::Listing::lists_more))]
fn enlist(heads: &mut [usize], entries: &mut Vec<Waiting>, sum: usize, wire: u32)
    requires lists { AreLists heads.old entries.old.items }
    requires sum { sum < 1024 }
    requires room { length entries.old.items < vec_capacity entries.old }
    ensures heads { heads.new ≡ slice_set heads.old sum (length entries.old.items + 1) }
    ensures entries { entries.new.items
        ≡ entries.old.items ++ record { wire = wire; behind = slice_index heads.old sum } ∷ [] }
    ensures lists { AreLists heads.new entries.new.items }
    ensures capacity { vec_capacity entries.new ≡ vec_capacity entries.old }
{
    let behind = heads[sum];
    entries.push_reserved(Waiting { wire, behind });
    heads[sum] = entries.len();
}

// Puts the wire into the heap under this sum. There is room.
fn push_far(far: &mut Far, sum: u64, wire: u32)
    requires order { IsHeap sooner (heap_items far.old) }
    requires room { heap_len far.old < heap_capacity far.old }
    ensures order { IsHeap sooner (heap_items far.new) }
    ensures items { IsPermutation (entry sum wire ∷ heap_items far.old) (heap_items far.new) }
    ensures len { heap_len far.new ≡ heap_len far.old + 1 }
    ensures capacity { heap_capacity far.old ≤ heap_capacity far.new }
{
    match far.push((Reverse(sum), wire)) {
        Ok(()) => {}
        Err(_) => unreachable!(),
    }
}

/// Puts the wire into the queue under this sum. There is room.
pub fn push(queue: &mut Queue, sum: u64, wire: u32)
    requires order { IsQueue queue.old }
    requires room { queue_len queue.old < queue.old.room }
    ensures order { IsQueue queue.new }
    ensures adds { Adds queue.old queue.new sum wire }
    ensures len { queue_len queue.new ≡ queue_len queue.old + 1 }
    ensures room { queue.new.room ≡ queue.old.room }
{
    if sum >= 1024 {
        push_far(&mut queue.far, sum, wire);
        return;
    }
    enlist(&mut queue.heads, &mut queue.entries, sum as usize, wire);
    queue.low = queue.low.min(sum as usize);
}

// The first wire of a list that isn't settled, with where the list goes on behind it.
fn first_open(entries: &[Waiting], settled: &[bool], head: usize) -> Option<(u32, usize)>
    requires down { LeadDown entries.now }
    requires head { head ≤ length entries.now }
    requires within { (w : ℕ) → OnList entries.now head w → w < length settled.now }
    ensures some { IfSome result (λ r. IsFirstOpen entries.now settled.now head r.0 r.1) }
    ensures none { IfNone result ((w : ℕ) → OnList entries.now head w → done settled.now w ≡ true) }
{
    let mut rest = head;
    while rest > 0 {
        let entry = entries[rest - 1];
        if !settled[entry.wire as usize] {
            return Some((entry.wire, entry.behind));
        }
        rest = entry.behind;
    }
    None
}

// The first wire of the lists from this sum on that isn't settled, with its sum and where its list goes on behind it.
fn first_listed(
    heads: &[usize],
    entries: &[Waiting],
    settled: &[bool],
    low: usize,
) -> Option<(usize, u32, usize)>
    requires lists { AreLists heads.now entries.now }
    requires within { (s w : ℕ) → Listed heads.now entries.now s w → w < length settled.now }
    ensures some { IfSome result (λ r.
        IsFirstListed heads.now entries.now settled.now low r.0 r.1 r.2) }
    ensures none { IfNone result
        ((s w : ℕ) → low ≤ s → Listed heads.now entries.now s w → done settled.now w ≡ true) }
{
    for sum in low..1024 {
        if let Some((wire, behind)) = first_open(entries, settled, heads[sum]) {
            return Some((sum, wire, behind));
        }
    }
    None
}

// Takes the least sum out of the heap, with its wire.
fn pop_far(far: &mut Far) -> Option<(u32, u64)>
    requires order { IsHeap sooner (heap_items far.old) }
    ensures order { IsHeap sooner (heap_items far.new) }
    ensures items { IfSome result (λ r.
        IsPermutation (heap_items far.old) (entry r.1 r.0 ∷ heap_items far.new)) }
    ensures least { IfSome result (λ r. IsUpperBound sooner (entry r.1 r.0) (heap_items far.old)) }
    ensures none { IfNone result (heap_items far.old ≡ []) }
    ensures len { OnSome result (heap_len far.new + 1 ≡ heap_len far.old) }
    ensures shorter { heap_len far.new ≤ heap_len far.old }
    ensures capacity { heap_capacity far.new ≡ heap_capacity far.old }
{
    let Some((Reverse(sum), wire)) = far.pop() else {
        return None;
    };
    Some((wire, sum))
}

// Takes the least sum of a wire that isn't settled out of the heap, and all that stand before it.
fn next_far(far: &mut Far, settled: &[bool]) -> Option<(u32, u64)>
    requires order { IsHeap sooner (heap_items far.old) }
    requires within { All (λ (x : Entry). x.1 < length settled.now) (heap_items far.old) }
    ensures order { IsHeap sooner (heap_items far.new) }
    ensures some { IfSome result (λ r.
        IsFirstFar settled.now (heap_items far.old) (heap_items far.new) r.1 r.0) }
    ensures none { IfNone result
        ((t v : ℕ) → Contains (heap_items far.old) (entry t v) → done settled.now v ≡ true) }
    ensures only { (t v : ℕ) → Contains (heap_items far.new) (entry t v)
        → Contains (heap_items far.old) (entry t v) }
    ensures shorter { heap_len far.new ≤ heap_len far.old }
    ensures capacity { heap_capacity far.new ≡ heap_capacity far.old }
{
    loop {
        let Some((wire, sum)) = pop_far(far) else {
            return None;
        };
        if !settled[wire as usize] {
            return Some((wire, sum));
        }
    }
}

/// Takes the wire with the least sum out of the queue, with that sum, and leaves out wires that were settled since they were put
/// in: the open wire with the least sum of label and bound, whatever these are.
pub fn next_waiting(queue: &mut Queue, settled: &[bool]) -> Option<(u32, u64)>
    requires order { IsQueue queue.old }
    requires within { (s w : ℕ) → Waits queue.old s w → w < length settled.now }
    ensures order { IsQueue queue.new }
    ensures least { (bound : ℕ → ℕ) (labels : List (Option ℕ)) → length settled.now ≡ length labels
        → Queues bound settled.now labels queue.old → IsLeastOpen bound labels settled.now result }
    ensures waits { (bound : ℕ → ℕ) (labels : List (Option ℕ)) → length settled.now ≡ length labels
        → Queues bound settled.now labels queue.old
        → IfSome result (λ r. Queues bound (slice_set settled.now r.0 true) labels queue.new) }
    ensures within { IfSome result (λ r. r.0 < length settled.now) }
    ensures shorter { queue_len queue.new ≤ queue_len queue.old }
    ensures room { queue.new.room ≡ queue.old.room }
{
    let listed = first_listed(&queue.heads, &queue.entries, settled, queue.low);
    let Some((sum, wire, behind)) = listed else {
        queue.low = 1024;
        return next_far(&mut queue.far, settled);
    };
    set_head(&mut queue.heads, sum, behind);
    queue.low = sum;
    Some((wire, sum as u64))
}

/// The same of a search: the open wire with the least sum of label and the aim's bound.
pub fn next_open(
    graph: &Graph,
    aim: &Aim,
    queue: &mut Queue,
    labels: &[Option<u64>],
    settled: &[bool],
) -> Option<(u32, u64)>
    requires order { IsQueue queue.old }
    requires lengths { length settled.now ≡ length labels.now }
    requires waits { Queues (bound_in graph.now aim.now) settled.now labels.now queue.old }
    ensures order { IsQueue queue.new }
    ensures least { IsLeastOpen (bound_in graph.now aim.now) labels.now settled.now result }
    ensures waits { IfSome result (λ r.
        Queues (bound_in graph.now aim.now) (slice_set settled.now r.0 true) labels.now queue.new) }
    ensures within { IfSome result (λ r. r.0 < length labels.now) }
    ensures shorter { queue_len queue.new ≤ queue_len queue.old }
    ensures room { queue.new.room ≡ queue.old.room }
{
    let (_graph, _aim, _labels) = (graph, aim, labels);
    next_waiting(queue, settled)
}

// Has the list of this sum begin elsewhere.
fn set_head(heads: &mut [usize], sum: usize, head: usize)
    requires { sum < length heads.old }
    ensures { heads.new ≡ slice_set heads.old sum head }
{
    heads[sum] = head;
}

// Ends all lists.
fn end_lists(heads: &mut [usize])
    ensures long { length heads.new ≡ length heads.old }
    ensures none { (s : ℕ) → slice_index heads.new s ≡ 0 }
{
    for sum in 0..heads.len() {
        heads[sum] = 0;
    }
}

/// Takes all wires out of the queue.
#[tactic(auto, using(crate::proofs::Listing::lists_none, crate::proofs::Listing::none_high))]
pub fn clear(queue: &mut Queue)
    requires order { IsQueue queue.old }
    ensures order { IsQueue queue.new }
    ensures empty { IsEmpty queue.new }
    ensures len { queue_len queue.new ≡ 0 }
    ensures room { queue.new.room ≡ queue.old.room }
{
    end_lists(&mut queue.heads);
    queue.entries.clear();
    queue.low = 1024;
    queue.far.clear();
}
