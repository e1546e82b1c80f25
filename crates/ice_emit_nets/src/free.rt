//! The sinks of free cells, whose signals may arrive at any input.
ghost use Rattle.std.specs.Prelude.{◌≡◌, ◌<◌, ◌++◌, [], None, Some, length, slice_index_or, take, IfOk, OnOk};
ghost use Rattle.std.specs.List.{list_any};
ghost use Rattle.ice_cells.specs.Same.{same_source};
ghost use Rattle.ice_emit_nets.specs.Ends.{pin_wires, inputs_of, free_ends};
ghost use Rattle.ice_emit_nets.specs.Firsts.{first_end};

use crate::pins::{TilePin, pin_wire, push_wire};
use ice_base::{NoMemory, Sink, TileAt, WireNo};
use ice_cells::Root;
use ice_chip::Chip;
use std::alloc::Global;

// The wires of a cell's inputs.
#[tactic(auto, using(crate::proofs::Targets::four_wires))]
pub(crate) fn input_wires(
    alloc: Global,
    chip: &Chip,
    tile: TileAt,
    i: usize,
) -> Result<Vec<WireNo>, NoMemory>
    ensures { IfOk result (λ targets. targets.items ≡ pin_wires chip.now tile (inputs_of i)) }
{
    let mut targets = Vec::new(alloc);
    push_wire(&mut targets, pin_wire(chip, tile, TilePin::Input(i, 0)))?;
    push_wire(&mut targets, pin_wire(chip, tile, TilePin::Input(i, 1)))?;
    push_wire(&mut targets, pin_wire(chip, tile, TilePin::Input(i, 2)))?;
    push_wire(&mut targets, pin_wire(chip, tile, TilePin::Input(i, 3)))?;
    Ok(targets)
}

// Whether an input reads the root.
fn reads(root: Root, input: Option<Root>) -> bool
    ensures { result ≡ same_source (Some root) input }
{
    match (root, input) {
        (Root::PadIn(j), Some(Root::PadIn(k))) => j == k,
        (Root::CellOut(j), Some(Root::CellOut(k))) => j == k,
        (Root::GlobalOut(j), Some(Root::GlobalOut(k))) => j == k,
        (Root::CarryOut(j), Some(Root::CarryOut(k))) => j == k,
        _ => false,
    }
}

// Whether one of these inputs reads the root.
fn some_reads(root: Root, ins: &[Option<Root>]) -> bool
    ensures { result ≡ list_any (same_source (Some root)) ins.now }
{
    for input in ins {
        if reads(root, *input) {
            return true;
        }
    }
    false
}

// Adds the sink of the input of a number, unless one of those before it reads the same root.
fn push_first(
    alloc: Global,
    ends: &mut Vec<(Root, Sink)>,
    targets: &[WireNo],
    ins: &[Option<Root>],
    k: usize,
) -> Result<(), NoMemory>
    requires { k < length ins.now }
    ensures { OnOk result (ends.new.items ≡ ends.old.items
        ++ first_end targets.now (take k ins.now) (slice_index_or ins.now k None)) }
{
    let before = &ins[..k];
    let Some(root) = ins[k] else {
        return Ok(());
    };
    if some_reads(root, before) {
        return Ok(());
    }
    let sink = Sink::from_targets(Vec::from_slice(alloc, targets)?);
    ends.push((root, sink))?;
    Ok(())
}

// Adds one sink for each root that inputs read.
pub(crate) fn push_free(
    alloc: Global,
    ends: &mut Vec<(Root, Sink)>,
    targets: &[WireNo],
    ins: &[Option<Root>],
) -> Result<(), NoMemory>
    ensures { OnOk result (ends.new.items ≡ ends.old.items ++ free_ends targets.now [] ins.now) }
{
    for k in 0..ins.len() {
        push_first(alloc, ends, targets, ins, k)?;
    }
    Ok(())
}
