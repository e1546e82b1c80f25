//! At which inputs of free cells their signals arrive, and the tables that follow.
ghost use Rattle.std.specs.Prelude.{◌≡◌, None, option_map, map, slice_index_or};
ghost use Rattle.ice_base.specs.declared.number.WireNo.{WireNo};
ghost use Rattle.ice_place_defs.specs.Loads.{Input};
ghost use Rattle.ice_emit_nets.specs.Ends.{wire_no, pin_wire};
ghost use Rattle.ice_emit_nets.specs.Nets.{root_wire};
ghost use Rattle.ice_place_defs.specs.Plan.{plan_in};
ghost use Rattle.ice_emit_defs.specs.Arrivals.{arrival, input_from, written_table};
ghost use Rattle.ice_emit_defs.specs.Written.{starts_at};
ghost use Rattle.ice_emit.specs.Owners.{begins_at, tree_no, is_in, first_in};
ghost use Rattle.ice_emit.specs.Routed.{IsRouted, held_in, routes_in, owner_from};

use crate::routed::Routed;
use ice_base::{TileAt, WireNo};
use ice_cells::{LogicCell, Root};
use ice_emit_nets::{TilePin, is_free, pin_wire};
use ice_lut::rewired;

// What stands in a list at a place, where there may be nothing.
fn wire_at(wires: &[Option<WireNo>], k: u32) -> Option<WireNo>
    ensures { result ≡ slice_index_or wires.now k None }
{
    match wires.get(k as usize) {
        None => None,
        Some(wire) => *wire,
    }
}

// The wire of a root.
#[tactic(auto, using(crate::proofs::Rooted::pad_root_is, crate::proofs::Rooted::cell_root_is, crate::proofs::Rooted::global_root_is))]
fn root_wire(routed: &Routed<'_>, root: Root) -> Option<WireNo>
    requires { IsRouted routed.now }
    ensures { result ≡ option_map wire_no
        (root_wire routed.now.placed.chip.now (plan_in routed.now.placed) root) }
{
    match root {
        Root::PadIn(k) => wire_at(routed.wires.pads.as_slice(), k),
        Root::CellOut(c) => wire_at(routed.wires.cells.as_slice(), c),
        Root::GlobalOut(g) => wire_at(routed.wires.globals.as_slice(), g),
        Root::CarryOut(_) => None,
    }
}

// What stands in a list of numbers at the place of a wire, where there may be nothing.
fn number_at(numbers: &[Option<u32>], wire: WireNo) -> Option<u32>
    ensures { result ≡ slice_index_or numbers.now wire.0 None }
{
    match numbers.get(wire.0 as usize) {
        None => None,
        Some(number) => *number,
    }
}

// The number of the tree that holds a wire.
#[tactic(auto, using(crate::proofs::Owning::owner_read))]
fn owner(routed: &Routed<'_>, wire: WireNo) -> Option<u32>
    requires { IsRouted routed.now }
    ensures { result ≡ owner_from 0 (routes_in routed.now) wire.0 }
{
    number_at(routed.owners, wire)
}

// Whether the tree of that number begins at the wire.
fn begins_at(routed: &Routed<'_>, number: u32, wire: WireNo) -> bool
    ensures { result ≡ begins_at (routes_in routed.now) number wire.0 }
{
    match routed.trees.get(number as usize) {
        None => false,
        Some(tree) => starts_at(tree.wires.as_slice(), wire),
    }
}

// Whether the wire is the first of these.
fn starts_at(wires: &[WireNo], wire: WireNo) -> bool
    ensures { result ≡ starts_at wires.now wire.0 }
{
    match wires.get(0) {
        None => false,
        Some(first) => first.0 == wire.0,
    }
}

// The number of the tree that begins at a wire.
fn tree_at(routed: &Routed<'_>, wire: Option<WireNo>) -> Option<u32>
    requires { IsRouted routed.now }
    ensures { result ≡ tree_no (routes_in routed.now) (option_map (λ (w : WireNo). w.0) wire) }
{
    let wire = wire?;
    let number = owner(routed, wire)?;
    if begins_at(routed, number, wire) {
        Some(number)
    } else {
        None
    }
}

// Whether the tree of that number holds the wire.
fn is_in(routed: &Routed<'_>, tree: Option<u32>, wire: Option<WireNo>) -> bool
    requires { IsRouted routed.now }
    ensures { result ≡ is_in (routes_in routed.now) tree wire }
{
    let (Some(tree), Some(wire)) = (tree, wire) else {
        return false;
    };
    match owner(routed, wire) {
        None => false,
        Some(number) => number == tree,
    }
}

// Whether the tree of a root, which begins at its wire, holds the wire of an input.
fn is_held(routed: &Routed<'_>, tree: Option<u32>, tile: TileAt, i: usize, input: u8) -> bool
    requires { IsRouted routed.now }
    ensures { result ≡ is_in (routes_in routed.now) tree
        (pin_wire routed.now.placed.chip.now tile (Input i input)) }
{
    is_in(
        routed,
        tree,
        pin_wire(routed.placed.chip, tile, TilePin::Input(i, input)),
    )
}

// The first input of a cell whose wire the tree holds.
fn first_held(routed: &Routed<'_>, tree: Option<u32>, tile: TileAt, i: usize) -> Option<u8>
    requires { IsRouted routed.now }
    ensures { result ≡ first_in (routes_in routed.now) tree routed.now.placed.chip.now tile i }
{
    if is_held(routed, tree, tile, i, 0) {
        return Some(0);
    }
    if is_held(routed, tree, tile, i, 1) {
        return Some(1);
    }
    if is_held(routed, tree, tile, i, 2) {
        return Some(2);
    }
    if is_held(routed, tree, tile, i, 3) {
        return Some(3);
    }
    None
}

// The input of a cell at which a root arrives.
fn arrival(routed: &Routed<'_>, tile: TileAt, i: usize, root: Root) -> Option<u8>
    requires { IsRouted routed.now }
    ensures { result ≡ arrival routed.now.placed.chip.now (held_in routed.now root) tile i }
{
    let tree = tree_at(routed, root_wire(routed, root));
    first_held(routed, tree, tile, i)
}

// The input at which what an input reads arrives.
fn input_from(routed: &Routed<'_>, tile: TileAt, i: usize, root: Option<Root>) -> Option<u8>
    requires { IsRouted routed.now }
    ensures { result ≡ input_from routed.now.placed.chip.now (held_in routed.now) tile i root }
{
    match root {
        None => None,
        Some(root) => arrival(routed, tile, i, root),
    }
}

// The inputs at which what the four inputs read arrives.
fn inputs_from(
    routed: &Routed<'_>,
    tile: TileAt,
    i: usize,
    ins: [Option<Root>; 4],
) -> [Option<u8>; 4]
    requires { IsRouted routed.now }
    ensures { result ≡ map (input_from routed.now.placed.chip.now (held_in routed.now) tile i) ins }
{
    let [first, second, third, fourth] = ins;
    [
        input_from(routed, tile, i, first),
        input_from(routed, tile, i, second),
        input_from(routed, tile, i, third),
        input_from(routed, tile, i, fourth),
    ]
}

/// The table of a cell in a slot as it is written: that of a free cell reads its signals where they arrive. It takes no memory.
pub fn written_table(routed: &Routed<'_>, tile: TileAt, i: usize, cell: &LogicCell) -> u16
    requires { IsRouted routed.now }
    ensures { result
        ≡ written_table routed.now.placed.chip.now (held_in routed.now) tile i cell.now }
{
    if !is_free(cell) {
        return cell.table;
    }
    rewired(cell.table, inputs_from(routed, tile, i, cell.ins))
}
