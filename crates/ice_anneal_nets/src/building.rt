//! Nets by nodes.
ghost use Rattle.std.specs.Prelude.{◌≡◌, ◌++◌, IfOk, OnOk, length, option_map, slice_get};
ghost use Rattle.ice_cells.specs.Tables.{table};
ghost use Rattle.ice_place_defs.specs.Plan.{plan_in};
ghost use Rattle.ice_anneal_nets.specs.Nodes.{reads_of, pad_node, holder, behind, all_nodes, nodes_in};
ghost use Rattle.ice_anneal_nets.specs.Sorted.{net_by, nets_by};

use crate::holders::holders_of;
use crate::sorting::readers_of;
use ice_anneal_board::{NetNodes, Node};
use ice_base::NoMemory;
use ice_cells::Items;
use ice_chip::Pad;
use ice_place_defs::Placed;
use std::alloc::Global;

// The node of a pad.
fn pad_node(ports: &[Pad], k: usize) -> Option<Node>
    ensures { result ≡ option_map pad_node (slice_get ports.now k) }
{
    match ports.get(k) {
        None => None,
        Some(pad) => Some(Node::Fixed(pad.tile)),
    }
}

// The nodes of all pads.
fn pad_nodes(alloc: Global, ports: &[Pad]) -> Result<Vec<Option<Node>>, NoMemory>
    ensures { IfOk result (λ nodes. nodes.items
        ≡ table (λ k. option_map pad_node (slice_get ports.now k)) (length ports.now)) }
{
    let mut nodes = Vec::new(alloc);
    for k in 0..ports.len() {
        nodes.push(pad_node(ports, k))?;
    }
    Ok(nodes)
}

// A node, and those that read a root.
fn with_readers(alloc: Global, node: Node, readers: &[Node]) -> Result<Vec<Node>, NoMemory>
    ensures { IfOk result (λ nodes. nodes.items ≡ behind readers.now node) }
{
    let mut nodes = Vec::new(alloc);
    nodes.push(node)?;
    nodes.extend_from_slice(readers)?;
    Ok(nodes)
}

// The node of a root, and those that read it.
fn nodes_of(alloc: Global, root: Option<Node>, readers: &[Node]) -> Result<Vec<Node>, NoMemory>
    ensures { IfOk result (λ nodes. nodes.items ≡ net_by readers.now root) }
{
    match root {
        None => Ok(Vec::new(alloc)),
        Some(node) => Ok(with_readers(alloc, node, readers)?),
    }
}

// Adds the nets of roots, by the node of each and those that read it.
fn add_nets(
    alloc: Global,
    nets: &mut Vec<NetNodes>,
    roots: &[Option<Node>],
    readers: &[Items<Node>],
) -> Result<(), NoMemory>
    ensures { OnOk result
        (nodes_in nets.new.items ≡ nodes_in nets.old.items ++ nets_by roots.now readers.now) }
{
    for k in 0..roots.len().min(readers.len()) {
        nets.push(NetNodes {
            nodes: nodes_of(alloc, roots[k], readers[k].as_slice())?,
        })?;
    }
    Ok(())
}

// Adds the nets of pads.
fn add_pads(
    alloc: Global,
    nets: &mut Vec<NetNodes>,
    ports: &[Pad],
    readers: &[Items<Node>],
) -> Result<(), NoMemory>
    ensures { OnOk result (nodes_in nets.new.items ≡ nodes_in nets.old.items ++ nets_by
        (table (λ k. option_map pad_node (slice_get ports.now k)) (length ports.now)) readers.now) }
{
    let roots = pad_nodes(alloc, ports)?;
    add_nets(alloc, nets, roots.as_slice(), readers)
}

// Adds the nets of cells.
fn add_cells(
    alloc: Global,
    nets: &mut Vec<NetNodes>,
    placed: &Placed<'_>,
    readers: &[Items<Node>],
) -> Result<(), NoMemory>
    ensures { OnOk result (nodes_in nets.new.items ≡ nodes_in nets.old.items
        ++ nets_by (table (holder 0 placed.now.clusters.now) (length placed.now.design.now.cells))
        readers.now) }
{
    let roots = holders_of(alloc, placed.clusters, placed.design.cells().len())?;
    add_nets(alloc, nets, roots.as_slice(), readers)
}

/// The nets of a design whose roots are no globals, by nodes. Takes time near the number of pins.
pub fn nets_of(alloc: Global, placed: &Placed<'_>) -> Result<Vec<NetNodes>, NoMemory>
    ensures { IfOk result (λ nets. nodes_in nets.items
        ≡ all_nodes (plan_in placed.now) (reads_of placed.now.chip.now (plan_in placed.now))) }
{
    let readers = readers_of(alloc, placed)?;
    let mut nets = Vec::new(alloc);
    add_pads(alloc, &mut nets, placed.ports, readers.pads.as_slice())?;
    add_cells(alloc, &mut nets, placed, readers.cells.as_slice())?;
    Ok(nets)
}
