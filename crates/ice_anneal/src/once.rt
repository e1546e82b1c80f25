//! Nets in which no node repeats the one before it, nor the first: that makes no box wider, and costs time at each walk.
ghost use Rattle.std.specs.Prelude.{◌≡◌, ℕ, List, true, length, IfOk};
ghost use Rattle.std.specs.List.{All, Contains};
ghost use Rattle.ice_base.specs.declared.number.TileAt.{TileAt};
ghost use Rattle.ice_anneal_board.specs.Length.{IsNode, IsNet, net_length, wire_length};

use ice_anneal_board::{NetNodes, Node};
use ice_base::NoMemory;
use std::alloc::Global;

// Whether the two are one node.
fn same_node(node: Node, other: Node) -> bool
    ensures { result ≡ true → node ≡ other }
{
    match node {
        Node::Cluster(c) => match other {
            Node::Cluster(d) => c == d,
            Node::Fixed(_) => false,
        },
        Node::Fixed(tile) => match other {
            Node::Cluster(_) => false,
            Node::Fixed(at) => tile.x == at.x && tile.y == at.y,
        },
    }
}

// Whether a node is the first or the last of these.
fn is_at_end(nodes: &[Node], node: Node) -> bool
    ensures { result ≡ true → Contains nodes.now node }
{
    let count = nodes.len();
    count > 0 && (same_node(nodes[0], node) || same_node(nodes[count - 1], node))
}

// Nodes without those that repeat the one before them, or the first.
fn once(alloc: Global, nodes: &[Node]) -> Result<Vec<Node>, NoMemory>
    ensures nodes { IfOk result (λ kept.
        (count : ℕ) → All (IsNode count) nodes.now → All (IsNode count) kept.items) }
    ensures lengths { IfOk result (λ kept.
        (at : List TileAt) → net_length at kept.items ≡ net_length at nodes.now) }
{
    let mut kept = Vec::new(alloc);
    for &node in nodes {
        if !is_at_end(&kept, node) {
            kept.push(node)?;
        }
    }
    Ok(kept)
}

/// Nets that are as long by fewer nodes, in time near the number of nodes. It fails for want of memory alone.
pub fn nets_once(alloc: Global, nets: &[NetNodes]) -> Result<Vec<NetNodes>, NoMemory>
    ensures count { IfOk result (λ found. length found.items ≡ length nets.now) }
    ensures nets { IfOk result (λ found.
        (count : ℕ) → All (IsNet count) nets.now → All (IsNet count) found.items) }
    ensures lengths { IfOk result (λ found.
        (at : List TileAt) → wire_length found.items at ≡ wire_length nets.now at) }
{
    let mut found = Vec::with_capacity(alloc, nets.len())?;
    for net in nets {
        found.push(NetNodes {
            nodes: once(alloc, &net.nodes)?,
        })?;
    }
    Ok(found)
}
