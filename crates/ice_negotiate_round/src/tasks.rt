//! The tasks of the nets that move.
ghost use Rattle.std.specs.Prelude.{◌≡◌, ◌<◌, ℕ, Some, length, slice_get, IfOk};
ghost use Rattle.ice_base.specs.declared.number.NetNo.{NetNo as Number};
ghost use Rattle.ice_negotiate_round.specs.Moving.{AreTasksOf, IsTaskFor};

use ice_base::{NetNo, NoMemory, Sink};
use ice_core::{Net, Task};
use ice_graph::Tree;
use std::alloc::Global;

// A copy of the sinks.
fn copy_of(alloc: Global, sinks: &[Sink]) -> Result<Vec<Sink>, NoMemory>
    ensures { IfOk result (λ copy. copy.items ≡ sinks.now) }
{
    let mut copy = Vec::with_capacity(alloc, sinks.len())?;
    for sink in sinks {
        let targets = Vec::from_slice(alloc, sink.targets())?;
        copy.push(Sink::from_targets(targets))?;
    }
    Ok(copy)
}

// The task of a net with this route.
fn task_of(alloc: Global, number: NetNo, net: &Net, tree: &Tree) -> Result<Task, NoMemory>
    ensures { IfOk result (IsTaskFor net.now tree.now number) }
{
    Ok(Task {
        net: number,
        root: net.root,
        sinks: copy_of(alloc, &net.sinks)?,
        old: Vec::from_slice(alloc, &tree.wires)?,
    })
}

// The tasks of the nets that move, in order.
pub fn tasks_of(
    alloc: Global,
    nets: &[Net],
    trees: &[Tree],
    moved: &[NetNo],
) -> Result<Vec<Task>, NoMemory>
    requires long { length trees.now ≡ length nets.now }
    requires within { (k : ℕ) (number : Number) → slice_get moved.now k ≡ Some number
        → number.0 < length nets.now }
    ensures { IfOk result (λ tasks. AreTasksOf nets.now trees.now moved.now tasks.items) }
{
    let mut tasks = Vec::with_capacity(alloc, moved.len())?;
    for number in moved {
        let place = number.0 as usize;
        let task = task_of(alloc, *number, &nets[place], &trees[place])?;
        tasks.push(task)?;
    }
    Ok(tasks)
}
