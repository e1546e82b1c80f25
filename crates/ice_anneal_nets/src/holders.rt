//! The clusters that hold cells.
ghost use Rattle.std.specs.Prelude.{◌≡◌, None, Some, [], replicate, IfOk};
ghost use Rattle.ice_cells.specs.Tables.{keep, put_at, table};
ghost use Rattle.ice_anneal_nets.specs.Holders.{held, held_node, noted, slots_held, clusters_held};
ghost use Rattle.ice_anneal_nets.specs.Nodes.{holder};

use ice_anneal_board::Node;
use ice_base::NoMemory;
use ice_cells::Cluster;
use std::alloc::Global;

// What is known of the cluster of a cell stays, and where nothing is known it is this one.
fn kept(known: Option<Node>, k: usize, _cell: u32) -> Option<Node>
    ensures { result ≡ keep held_node known (held k (Some _cell)) }
{
    match known {
        Some(node) => Some(node),
        None => Some(Node::Cluster(k)),
    }
}

// Notes the cluster of the cell that a slot holds.
fn note_slot(nodes: &mut Vec<Option<Node>>, k: usize, cell: Option<u32>)
    ensures { nodes.new.items ≡ put_at (keep held_node) None nodes.old.items (held k cell) cell }
{
    if let Some(c) = cell {
        let place = c as usize;
        if place < nodes.len() {
            nodes[place] = kept(nodes[place], k, c);
        }
    }
}

// Notes a cluster for its cells.
fn note_cluster(nodes: &mut Vec<Option<Node>>, k: usize, cells: &[Option<u32>])
    ensures { nodes.new.items ≡ noted nodes.old.items (slots_held k cells.now) }
{
    for cell in cells {
        note_slot(nodes, k, *cell);
    }
}

// Notes clusters for their cells.
fn note_clusters(nodes: &mut Vec<Option<Node>>, clusters: &[Cluster])
    ensures { nodes.new.items ≡ noted nodes.old.items (clusters_held 0 clusters.now) }
{
    for (k, cluster) in clusters.iter().enumerate() {
        note_cluster(nodes, k, cluster.cells.as_slice());
    }
}

// Of so many cells no cluster is known yet.
fn no_holders(alloc: Global, cells: usize) -> Result<Vec<Option<Node>>, NoMemory>
    ensures { IfOk result (λ nodes. nodes.items ≡ replicate cells None) }
{
    Ok(vec![in alloc; None; cells]?)
}

/// The node of each of so many cells: the first cluster that holds it.
#[tactic(auto, using(crate::proofs::Holding::holders_are))]
pub(crate) fn holders_of(
    alloc: Global,
    clusters: &[Cluster],
    cells: usize,
) -> Result<Vec<Option<Node>>, NoMemory>
    ensures { IfOk result (λ nodes. nodes.items ≡ table (holder 0 clusters.now) cells) }
{
    let mut nodes = no_holders(alloc, cells)?;
    note_clusters(&mut nodes, clusters);
    Ok(nodes)
}
