//! What reads roots in a design.
ghost use Rattle.std.specs.Prelude.{◌≡◌, ◌++◌, IfOk, OnOk, Some};
ghost use Rattle.ice_place_defs.specs.Plan.{plan_in};
ghost use Rattle.ice_place_defs.specs.Loads.{fed_roots};
ghost use Rattle.ice_anneal_nets.specs.Reads.{read_at, pad_reads, pads_reads, global_reads, globals_reads, cell_reads, control_reads, slot_reads, slots_reads, cluster_reads, clusters_reads};
ghost use Rattle.ice_anneal_nets.specs.Nodes.{reads_of};

use crate::Read;
use ice_anneal_board::Node;
use ice_base::NoMemory;
use ice_cells::{Cluster, Control, DesignPad, LogicCell, Root};
use ice_chip::{Chip, Pad};
use ice_place_defs::{Placed, fed_root};
use std::alloc::Global;

// Adds what a node reads.
fn add(reads: &mut Vec<Read>, node: Node, root: Option<Root>) -> Result<(), NoMemory>
    ensures { OnOk result (reads.new.items ≡ reads.old.items ++ read_at node root) }
{
    match root {
        None => {}
        Some(root) => reads.push(Read { root, node })?,
    }
    Ok(())
}

// Adds what a pad reads.
#[tactic(auto, using(crate::proofs::Joining::joined_two))]
fn add_pad(reads: &mut Vec<Read>, place: Pad, pad: &DesignPad) -> Result<(), NoMemory>
    ensures { OnOk result (reads.new.items ≡ reads.old.items ++ pad_reads place pad.now) }
{
    add(reads, Node::Fixed(place.tile), pad.drive)?;
    add(reads, Node::Fixed(place.tile), pad.enable)?;
    Ok(())
}

// Adds what pads read.
fn add_pads(reads: &mut Vec<Read>, places: &[Pad], pads: &[DesignPad]) -> Result<(), NoMemory>
    ensures { OnOk result (reads.new.items ≡ reads.old.items ++ pads_reads places.now pads.now) }
{
    for k in 0..places.len().min(pads.len()) {
        add_pad(reads, places[k], &pads[k])?;
    }
    Ok(())
}

// Adds what feeds a global.
fn add_global(
    reads: &mut Vec<Read>,
    chip: &Chip,
    number: u8,
    root: Option<Root>,
) -> Result<(), NoMemory>
    ensures { OnOk result (reads.new.items ≡ reads.old.items ++ global_reads chip.now number root) }
{
    match chip.global_of(number) {
        None => {}
        Some(tile) => add(reads, Node::Fixed(tile), root)?,
    }
    Ok(())
}

// Adds what feeds globals; a direct buffer reads in no tile.
fn add_globals(
    reads: &mut Vec<Read>,
    chip: &Chip,
    numbers: &[u8],
    direct: &[bool],
    roots: &[Option<Root>],
) -> Result<(), NoMemory>
    ensures { OnOk result (reads.new.items
        ≡ reads.old.items ++ globals_reads chip.now numbers.now (fed_roots direct.now roots.now)) }
{
    for k in 0..numbers.len().min(roots.len()) {
        let read = fed_root(direct, k, roots[k]);
        add_global(reads, chip, numbers[k], read)?;
    }
    Ok(())
}

// Adds what a cell reads.
#[tactic(auto, using(crate::proofs::Joining::joined_two))]
fn add_cell(reads: &mut Vec<Read>, node: Node, cell: &LogicCell) -> Result<(), NoMemory>
    ensures { OnOk result (reads.new.items ≡ reads.old.items ++ cell_reads node cell.now) }
{
    add(reads, node, cell.ins[0])?;
    add(reads, node, cell.ins[1])?;
    add(reads, node, cell.ins[2])?;
    add(reads, node, cell.ins[3])?;
    Ok(())
}

// Adds what flip-flops that are driven alike read.
#[tactic(auto, using(crate::proofs::Joining::joined_two))]
fn add_set(reads: &mut Vec<Read>, node: Node, control: Control) -> Result<(), NoMemory>
    ensures { OnOk result (reads.new.items ≡ reads.old.items ++ control_reads node (Some control)) }
{
    add(reads, node, control.clock)?;
    add(reads, node, control.enable)?;
    add(reads, node, control.reset)?;
    Ok(())
}

// The same, where there are any.
fn add_control(reads: &mut Vec<Read>, node: Node, control: Option<Control>) -> Result<(), NoMemory>
    ensures { OnOk result (reads.new.items ≡ reads.old.items ++ control_reads node control) }
{
    match control {
        None => {}
        Some(control) => add_set(reads, node, control)?,
    }
    Ok(())
}

// Adds what the cell of a number reads.
fn add_numbered(
    reads: &mut Vec<Read>,
    cells: &[LogicCell],
    node: Node,
    c: u32,
) -> Result<(), NoMemory>
    ensures { OnOk result
        (reads.new.items ≡ reads.old.items ++ slot_reads cells.now node (Some c)) }
{
    match cells.get(c as usize) {
        None => {}
        Some(cell) => add_cell(reads, node, cell)?,
    }
    Ok(())
}

// Adds what the cell of a slot reads.
fn add_slot(
    reads: &mut Vec<Read>,
    cells: &[LogicCell],
    node: Node,
    slot: Option<u32>,
) -> Result<(), NoMemory>
    ensures { OnOk result (reads.new.items ≡ reads.old.items ++ slot_reads cells.now node slot) }
{
    match slot {
        None => {}
        Some(c) => add_numbered(reads, cells, node, c)?,
    }
    Ok(())
}

// Adds what the cells of slots read.
fn add_slots(
    reads: &mut Vec<Read>,
    cells: &[LogicCell],
    node: Node,
    slots: &[Option<u32>],
) -> Result<(), NoMemory>
    ensures { OnOk result
        (reads.new.items ≡ reads.old.items ++ slots_reads cells.now node slots.now) }
{
    for slot in slots {
        add_slot(reads, cells, node, *slot)?;
    }
    Ok(())
}

// Adds what a cluster reads.
#[tactic(auto, using(crate::proofs::Joining::joined_two))]
fn add_cluster(
    reads: &mut Vec<Read>,
    cells: &[LogicCell],
    k: usize,
    cluster: &Cluster,
) -> Result<(), NoMemory>
    ensures { OnOk result
        (reads.new.items ≡ reads.old.items ++ cluster_reads cells.now k cluster.now) }
{
    add_slots(reads, cells, Node::Cluster(k), cluster.cells.as_slice())?;
    add_control(reads, Node::Cluster(k), cluster.control)?;
    Ok(())
}

// Adds what clusters read.
fn add_clusters(
    reads: &mut Vec<Read>,
    cells: &[LogicCell],
    clusters: &[Cluster],
) -> Result<(), NoMemory>
    ensures { OnOk result
        (reads.new.items ≡ reads.old.items ++ clusters_reads cells.now 0 clusters.now) }
{
    for k in 0..clusters.len() {
        add_cluster(reads, cells, k, &clusters[k])?;
    }
    Ok(())
}

/// What reads roots in a design, by nodes.
pub fn reads_of(alloc: Global, placed: &Placed<'_>) -> Result<Vec<Read>, NoMemory>
    ensures { IfOk result (λ reads.
        reads.items ≡ reads_of placed.now.chip.now (plan_in placed.now)) }
{
    let mut reads = Vec::new(alloc);
    add_pads(&mut reads, placed.ports, placed.design.pads())?;
    add_globals(
        &mut reads,
        placed.chip,
        placed.globals,
        placed.direct,
        placed.design.globals(),
    )?;
    add_clusters(&mut reads, placed.design.cells(), placed.clusters)?;
    Ok(reads)
}
