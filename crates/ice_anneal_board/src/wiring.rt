//! Which nets each cluster has a node of.
ghost use Rattle.std.specs.Prelude.{◌≡◌, ℕ, ◌^◌, ◌<◌, ◌∷◌, [], length, IfOk, OnOk, true};
ghost use Rattle.std.specs.List.{All, Contains};
ghost use Rattle.ice_anneal_board.specs.declared.net.Node.TheVariants.{Cluster as of_cluster};
ghost use Rattle.ice_anneal_board.specs.Length.{IsNode, IsNet};
ghost use Rattle.ice_anneal_board.specs.Noting.{nets_at, Noted, Wired};
ghost use Rattle.ice_anneal_board.specs.Wiring.{IsWiring};

use crate::{NetNodes, Node};
use ice_base::NoMemory;
use std::alloc::Global;

/// The nets that have a node in one place, by number.
#[derive(Drop)]
pub struct Touched {
    pub nets: Vec<usize>,
}

/// The nets, and for each place in a placement the nets that have a node there.
#[derive(Drop)]
pub struct Wiring {
    pub nets: Vec<NetNodes>,
    pub touching: Vec<Touched>,
}

// Whether this is the last of the numbers.
fn ends_with(list: &[usize], number: usize) -> bool
    ensures { result ≡ true → Contains list.now number }
{
    let count = list.len();
    count > 0 && list[count - 1] == number
}

// Adds a net, where it isn't the last one.
fn add(list: &mut Vec<usize>, net: usize) -> Result<(), NoMemory>
    ensures noted { OnOk result (Contains list.new.items net) }
    ensures kept { OnOk result ((j : ℕ) → Contains list.old.items j → Contains list.new.items j) }
    ensures within { OnOk result ((limit : ℕ) → net < limit → All (λ j. j < limit) list.old.items
        → All (λ j. j < limit) list.new.items) }
{
    if !ends_with(list, net) {
        list.push(net)?;
    }
    Ok(())
}

// Notes a net for a cluster.
fn note(touching: &mut Vec<Touched>, net: usize, c: usize) -> Result<(), NoMemory>
    requires { c < length touching.old.items }
    ensures { OnOk result (Noted touching.old.items touching.new.items net (of_cluster c ∷ [])) }
{
    add(&mut touching[c].nets, net)
}

// Notes a net for the cluster of a node, where it is of one.
fn note_node(touching: &mut Vec<Touched>, net: usize, node: Node) -> Result<(), NoMemory>
    requires { IsNode (length touching.old.items) node }
    ensures { OnOk result (Noted touching.old.items touching.new.items net (node ∷ [])) }
{
    match node {
        Node::Cluster(c) => note(touching, net, c),
        Node::Fixed(_) => Ok(()),
    }
}

// Notes a net for the clusters of its nodes.
fn note_net(touching: &mut Vec<Touched>, net: usize, nodes: &[Node]) -> Result<(), NoMemory>
    requires { All (IsNode (length touching.old.items)) nodes.now }
    ensures { OnOk result (Noted touching.old.items touching.new.items net nodes.now) }
{
    for node in nodes {
        note_node(touching, net, *node)?;
    }
    Ok(())
}

// Notes nets, the first of which has the number 0.
fn note_nets(touching: &mut Vec<Touched>, nets: &[NetNodes]) -> Result<(), NoMemory>
    requires { All (IsNet (length touching.old.items)) nets.now }
    ensures { OnOk result ((count : ℕ) → Wired count nets.now 0 touching.old.items
        → Wired count nets.now (length nets.now) touching.new.items) }
{
    for (k, net) in nets.iter().enumerate() {
        note_net(touching, k, &net.nodes)?;
    }
    Ok(())
}

// For so many clusters no net is noted.
fn untouched(alloc: Global, count: usize) -> Result<Vec<Touched>, NoMemory>
    ensures counts { IfOk result (λ touching. length touching.items ≡ count) }
    ensures none { IfOk result (λ touching. (c : ℕ) → nets_at touching.items c ≡ []) }
{
    let mut touching = Vec::new(alloc);
    for k in 0..count {
        touching.push(Touched {
            nets: Vec::new(alloc),
        })?;
    }
    Ok(touching)
}

/// The wiring of so many clusters and free sites together. Takes time near the number of nodes.
///
/// # Errors
/// Want of memory alone.
pub fn wiring_of(alloc: Global, nets: Vec<NetNodes>, count: usize) -> Result<Wiring, NoMemory>
    requires nets { All (IsNet count) nets.items }
    requires few { length nets.items < 2 ^ 32 }
    ensures wiring { IfOk result (λ w. IsWiring count w) }
    ensures nets { IfOk result (λ w. w.nets.items ≡ nets.items) }
{
    let mut touching = untouched(alloc, count)?;
    note_nets(&mut touching, nets.as_slice())?;
    Ok(Wiring { nets, touching })
}
