//! What the first round begins with.
ghost use Rattle.std.specs.Prelude.{◌≡◌, ◌<◌, ◌≤◌, ℕ, Some, length, slice_get, IfOk};
ghost use Rattle.ice_negotiate_defs.specs.Rounds.{AreAll, AreBare, BeginsWith, IsBegun, kept_from, left_from};
ghost use Rattle.ice_negotiate_defs.specs.Fitting.{is_whole, whole, wholes};

use crate::logs::copy_of;
use ice_base::{NetNo, NoMemory};
use ice_core::MOST_NETS;
use ice_graph::Tree;
use ice_negotiate_defs::Kept;
use std::alloc::Global;

// The numbers of this many nets.
#[tactic(auto, using(crate::proofs::Beginning::all_none, crate::proofs::Beginning::all_more))]
pub fn all_nets(alloc: Global, nets: usize) -> Result<Vec<NetNo>, NoMemory>
    requires { nets ≤ MOST_NETS }
    ensures { IfOk result (λ list. AreAll nets list.items) }
{
    let mut list = Vec::new(alloc);
    for net in 0..nets {
        list.push(NetNo(net as u32))?;
    }
    Ok(list)
}

// Trees of this many nets that hold no wire.
#[tactic(auto, using(crate::proofs::Beginning::bare_none, crate::proofs::Beginning::bare_more))]
pub fn bare_trees(alloc: Global, nets: usize) -> Result<Vec<Tree>, NoMemory>
    requires { nets ≤ MOST_NETS }
    ensures long { IfOk result (λ trees. length trees.items ≡ nets) }
    ensures bare { IfOk result (λ trees. AreBare trees.items) }
{
    let mut trees = Vec::new(alloc);
    for _net in 0..nets {
        trees.push(Tree {
            wires: Vec::new(alloc),
            rows: Vec::new(alloc),
        })?;
    }
    Ok(trees)
}

// Whether a net keeps a tree.
fn keeps(kept: &Kept) -> bool
    ensures { result ≡ is_whole kept.now }
{
    matches!(kept, Kept::Whole(_))
}

// The numbers of the nets that keep no tree.
#[tactic(auto, using(crate::proofs::Keeping::left_more, crate::proofs::Keeping::left_same, crate::proofs::Keeping::left_all))]
pub fn left_nets(alloc: Global, kept: &[Kept]) -> Result<Vec<NetNo>, NoMemory>
    requires { length kept.now ≤ MOST_NETS }
    ensures { IfOk result (λ list. list.items ≡ left_from 0 (wholes kept.now)) }
{
    let mut list = Vec::new(alloc);
    for net in 0..kept.len() {
        if !keeps(&kept[net]) {
            list.push(NetNo(net as u32))?;
        }
    }
    Ok(list)
}

// The numbers of the nets that keep a tree.
#[tactic(auto, using(crate::proofs::Keeping::keeping_more, crate::proofs::Keeping::keeping_same, crate::proofs::Keeping::keeping_all))]
pub fn keeping_nets(alloc: Global, kept: &[Kept]) -> Result<Vec<NetNo>, NoMemory>
    requires { length kept.now ≤ MOST_NETS }
    ensures { IfOk result (λ list. list.items ≡ kept_from 0 (wholes kept.now)) }
{
    let mut list = Vec::new(alloc);
    for net in 0..kept.len() {
        if keeps(&kept[net]) {
            list.push(NetNo(net as u32))?;
        }
    }
    Ok(list)
}

// A copy of the tree that a net keeps, or a tree that holds no wire.
fn first_tree(alloc: Global, kept: &Kept) -> Result<Tree, NoMemory>
    ensures { IfOk result (IsBegun (Some (whole kept.now))) }
{
    match kept {
        Kept::Whole(tree) => {
            let copy = copy_of(tree)?;
            Ok(copy)
        }
        Kept::Lost(_) | Kept::Cut(_) => Ok(Tree {
            wires: Vec::new(alloc),
            rows: Vec::new(alloc),
        }),
    }
}

// The trees that nets begin with: copies of those that they keep, and of each other one a tree that holds no wire.
#[tactic(auto, using(crate::proofs::Keeping::begin_none, crate::proofs::Keeping::begin_all))]
pub fn first_trees(alloc: Global, kept: &[Kept]) -> Result<Vec<Tree>, NoMemory>
    ensures { IfOk result (λ trees. BeginsWith (Some (wholes kept.now)) trees.items) }
{
    let mut trees = Vec::new(alloc);
    for net in 0..kept.len() {
        trees.push(first_tree(alloc, &kept[net])?)?;
    }
    Ok(trees)
}
