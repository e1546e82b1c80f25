//! Which tree holds each wire.
ghost use Rattle.std.specs.Prelude.{◌≡◌, ◌<◌, ◌^◌, ◌∷◌, [], None, length, map, replicate, IfOk};
ghost use Rattle.ice_cells.specs.Tables.{keep, table};
ghost use Rattle.ice_graph.specs.Leading.{route_of};
ghost use Rattle.ice_emit.specs.Holding.{holding, holder, noted, tree_holdings, all_holdings};
ghost use Rattle.ice_emit.specs.Routed.{owner_from};

use ice_base::{NoMemory, WireNo, to_u32};
use ice_graph::Tree;
use std::alloc::Global;

// The number that is known stays, and where none is known it is this one.
fn kept(known: Option<u32>, number: u32, _wire: WireNo) -> Option<u32>
    ensures { result ≡ keep holder known (holding number _wire) }
{
    match known {
        Some(known) => Some(known),
        None => Some(number),
    }
}

// Notes that the tree of a number holds a wire.
fn note_wire(owners: &mut Vec<Option<u32>>, number: u32, wire: WireNo)
    ensures { owners.new.items ≡ noted owners.old.items (holding number wire ∷ []) }
{
    let place = wire.0 as usize;
    if place < owners.len() {
        owners[place] = kept(owners[place], number, wire);
    }
}

// Notes the wires that the tree of a number holds.
fn note_tree(owners: &mut Vec<Option<u32>>, number: u32, wires: &[WireNo])
    ensures { owners.new.items ≡ noted owners.old.items (tree_holdings number wires.now) }
{
    for wire in wires {
        note_wire(owners, number, *wire);
    }
}

// Notes the wires of trees.
#[tactic(auto, using(crate::proofs::Holdings::next_holdings))]
fn note_trees(owners: &mut Vec<Option<u32>>, trees: &[Tree])
    requires { length trees.now < 2 ^ 32 }
    ensures { owners.new.items ≡ noted owners.old.items (all_holdings 0 (map route_of trees.now)) }
{
    for (k, tree) in trees.iter().enumerate() {
        note_tree(owners, k as u32, tree.wires.as_slice());
    }
}

// No wire is held yet.
fn no_owners(alloc: Global, wires: u32) -> Result<Vec<Option<u32>>, NoMemory>
    ensures { IfOk result (λ owners. owners.items ≡ replicate wires None) }
{
    Ok(vec![in alloc; None; wires as usize]?)
}

/// The number of the first tree that holds each wire, of so many wires. More than 4,294,967,295 trees count as want of memory.
#[tactic(auto, using(crate::proofs::Holdings::owners_are))]
pub fn owners_of(alloc: Global, wires: u32, trees: &[Tree]) -> Result<Vec<Option<u32>>, NoMemory>
    ensures { IfOk result (λ owners.
        owners.items ≡ table (owner_from 0 (map route_of trees.now)) wires) }
{
    to_u32(trees.len())?;
    let mut owners = no_owners(alloc, wires)?;
    note_trees(&mut owners, trees);
    Ok(owners)
}
