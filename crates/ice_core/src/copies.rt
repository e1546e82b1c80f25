//! Copies of routes.
ghost use Rattle.std.specs.Prelude.{◌≡◌, IfOk};
ghost use Rattle.ice_core.specs.Routes.{lists_of, old_wires, tree_wires};

use crate::task::Task;
use ice_base::{NoMemory, WireNo};
use ice_graph::Tree;
use std::alloc::Global;

/// A copy of the old wires of each task, in order. It answers `NoMemory` where it finds no memory for its lists.
pub fn old_routes(alloc: Global, tasks: &[Task]) -> Result<Vec<Vec<WireNo>>, NoMemory>
    ensures { IfOk result (λ lists. lists_of lists.items ≡ old_wires tasks.now) }
{
    let mut lists = Vec::with_capacity(alloc, tasks.len())?;
    for task in tasks {
        lists.push(Vec::from_slice(alloc, &task.old)?)?;
    }
    Ok(lists)
}

/// A copy of the wires of each tree, in order. It answers `NoMemory` where it finds no memory for its lists.
pub fn tree_routes(alloc: Global, trees: &[Tree]) -> Result<Vec<Vec<WireNo>>, NoMemory>
    ensures { IfOk result (λ lists. lists_of lists.items ≡ tree_wires trees.now) }
{
    let mut lists = Vec::with_capacity(alloc, trees.len())?;
    for tree in trees {
        lists.push(Vec::from_slice(alloc, &tree.wires)?)?;
    }
    Ok(lists)
}
