//! The start of a search: the wires of the tree have the label 0.
ghost use Rattle.std.specs.Prelude.{◌≡◌, ◌+◌, ◌<◌, ◌≤◌, ℕ, [], ◌∷◌, Bool, List, Option, length, slice_get, true, false, None, Some, vec_capacity};
ghost use Rattle.ice_base.specs.declared.number.WireNo.{WireNo as Wire};
ghost use Rattle.ice_path.specs.Aims.{Fits, bound_in, leads};
ghost use Rattle.ice_path.specs.Queue.{IsEmpty, IsQueue, queue_len};
ghost use Rattle.ice_path.specs.Search.{Queues, Touches, Starts, done, label};

use crate::aim::Aim;
use crate::queue::Queue;
use crate::search::mark;
use ice_base::WireNo;
use ice_graph::Graph;

// Gives a wire of the tree the label 0, unless it has it already or leads nowhere.
#[tactic(auto, using(crate::proofs::Touching::touched_new, crate::proofs::Touching::room_left, crate::proofs::Touching::no_label, crate::proofs::Starting::starts_astray, crate::proofs::Starting::starts_again, crate::proofs::Starting::starts_new))]
fn root(
    graph: &Graph,
    aim: &Aim,
    labels: &mut [Option<u64>],
    touched: &mut Vec<u32>,
    queue: &mut Queue,
    wire: WireNo,
)
    requires wires { length labels.old ≡ graph.now.wires }
    requires fits { Fits graph.now aim.now }
    requires within { wire.0 < length labels.old }
    requires order { IsQueue queue.old }
    requires room { (queue_len queue.old ≤ length touched.old.items)
        × (length labels.old ≤ queue.old.room) }
    requires touches { Touches labels.old touched.old.items }
    requires space { length labels.old ≤ vec_capacity touched.old }
    ensures starts { (tree : List Wire) (k : ℕ) (settled : List Bool) → slice_get tree k ≡ Some wire
        → Starts tree (leads aim.now) k labels.old settled
        → Starts tree (leads aim.now) (k + 1) labels.new settled }
    ensures waits { (settled : List Bool)
        → Queues (bound_in graph.now aim.now) settled labels.old queue.old
        → Queues (bound_in graph.now aim.now) settled labels.new queue.new }
    ensures order { IsQueue queue.new }
    ensures room { queue_len queue.new ≤ length touched.new.items }
    ensures capacity { queue.new.room ≡ queue.old.room }
    ensures touches { Touches labels.new touched.new.items }
    ensures space { vec_capacity touched.new ≡ vec_capacity touched.old }
{
    if !aim.leads(wire) {
        return;
    }
    if labels[wire.0 as usize].is_some() {
        return;
    }
    touched.push_reserved(wire.0);
    mark(graph, aim, labels, queue, wire.0, 0);
}

// Gives the wires of the tree that lead on the label 0.
#[tactic(auto, using(crate::proofs::Starting::starts_none, crate::proofs::Starting::queues_none))]
pub fn root_all(
    graph: &Graph,
    aim: &Aim,
    labels: &mut [Option<u64>],
    touched: &mut Vec<u32>,
    queue: &mut Queue,
    tree: &[WireNo],
    settled: &[bool],
)
    requires wires { length labels.old ≡ graph.now.wires }
    requires fits { Fits graph.now aim.now }
    requires tree { (k : ℕ) (v : Wire) → slice_get tree.now k ≡ Some v → v.0 < length labels.old }
    requires order { IsQueue queue.old }
    requires empty { IsEmpty queue.old × (queue_len queue.old ≡ 0) }
    requires room { length labels.old ≤ queue.old.room }
    requires fresh { (w : ℕ) → label labels.old w ≡ None }
    requires open_wires { (w : ℕ) → done settled.now w ≡ false }
    requires touches { Touches labels.old touched.old.items }
    requires space { length labels.old ≤ vec_capacity touched.old }
    ensures starts { Starts tree.now (leads aim.now) (length tree.now) labels.new settled.now }
    ensures waits { Queues (bound_in graph.now aim.now) settled.now labels.new queue.new }
    ensures order { IsQueue queue.new }
    ensures room { queue_len queue.new ≤ length touched.new.items }
    ensures capacity { queue.new.room ≡ queue.old.room }
    ensures touches { Touches labels.new touched.new.items }
    ensures space { vec_capacity touched.new ≡ vec_capacity touched.old }
{
    let _settled = settled;
    for wire in tree {
        root(graph, aim, labels, touched, queue, *wire);
    }
}
