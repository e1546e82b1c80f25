//! Whether a tile is a site, and whether two sites are linked.
ghost use Rattle.std.specs.Prelude.{◌≡◌, ◌<◌, option_map};
ghost use Rattle.ice_chip.specs.Lookups.{wire_named};
ghost use Rattle.ice_chip.specs.Names.{input_name};
ghost use Rattle.ice_chip.specs.WireNames.{output_name, carry_out_name, first_carry_name};
ghost use Rattle.ice_sites.specs.Site.{has_wire, leads, is_same_wire, is_logic, all_below, has_cell, has_chain, has_controls, has_entry, is_site, is_above, is_link};

use ice_base::{TileAt, WireNo};
use ice_bits_rows::{Index, first_sound};
use ice_chip::{
    Chip, TileKind, carry_in_name, carry_out_name, clock_enable_name, clock_name, first_carry_name,
    input_name, output_name, set_reset_name,
};

// Whether a wire has the name in a tile.
fn has_wire(chip: &Chip, tile: TileAt, name: &[u8]) -> bool
    ensures { result ≡ has_wire chip.now tile name.now }
{
    chip.wire_named(tile, name).is_some()
}

// Whether both wires are there, and a sound row leads from the one to the other.
fn leads(index: &Index, source: Option<WireNo>, target: Option<WireNo>) -> bool
    ensures { result
        ≡ leads index.now.chip.now (option_map (λ w. w.0) source) (option_map (λ w. w.0) target) }
{
    match (source, target) {
        (Some(source), Some(target)) => first_sound(index, source, target).is_some(),
        _ => false,
    }
}

// Whether both wires are there, and they are the same.
fn is_same_wire(wire: Option<WireNo>, other: Option<WireNo>) -> bool
    ensures { result ≡ is_same_wire (option_map (λ w. w.0) wire) (option_map (λ w. w.0) other) }
{
    match (wire, other) {
        (Some(wire), Some(other)) => wire == other,
        _ => false,
    }
}

// Whether this is the kind of a logic tile.
fn is_logic(kind: Option<TileKind>) -> bool
    ensures { result ≡ is_logic kind }
{
    matches!(kind, Some(TileKind::Logic))
}

// The wire of an input of a cell.
fn input_wire(chip: &Chip, tile: TileAt, cell: u8, input: u8) -> Option<WireNo>
    ensures { option_map (λ w. w.0) result ≡ wire_named chip.now tile (input_name cell input) }
{
    chip.wire_named(tile, &input_name(cell, input))
}

// The wire of the carry output of a cell.
fn carry_wire(chip: &Chip, tile: TileAt, cell: u8) -> Option<WireNo>
    ensures { option_map (λ w. w.0) result ≡ wire_named chip.now tile (carry_out_name cell) }
{
    chip.wire_named(tile, &carry_out_name(cell))
}

// The wire of the carry into the first cell.
fn entry_wire(chip: &Chip, tile: TileAt) -> Option<WireNo>
    ensures { option_map (λ w. w.0) result ≡ wire_named chip.now tile first_carry_name }
{
    chip.wire_named(tile, &first_carry_name())
}

// Whether the tile has an input of a cell.
fn has_input(chip: &Chip, tile: TileAt, cell: u8, input: u8) -> bool
    ensures { result ≡ has_wire chip.now tile (input_name cell input) }
{
    has_wire(chip, tile, &input_name(cell, input))
}

// Whether the tile has the output of a cell.
fn has_output(chip: &Chip, tile: TileAt, cell: u8) -> bool
    ensures { result ≡ has_wire chip.now tile (output_name cell) }
{
    has_wire(chip, tile, &output_name(cell))
}

// Whether the tile has the inputs and the output of a cell.
fn has_cell(chip: &Chip, tile: TileAt, cell: u8) -> bool
    ensures { result ≡ has_cell chip.now tile cell }
{
    has_input(chip, tile, cell, 0)
        && has_input(chip, tile, cell, 1)
        && has_input(chip, tile, cell, 2)
        && has_input(chip, tile, cell, 3)
        && has_output(chip, tile, cell)
}

// Whether the tile has the inputs and the outputs of its eight cells.
#[tactic(auto, using(crate::proofs::Below::next, crate::proofs::Below::none))]
fn has_cells(chip: &Chip, tile: TileAt) -> bool
    ensures { result ≡ all_below (has_cell chip.now tile) 8 }
{
    for cell in 0..8 {
        if !has_cell(chip, tile, cell) {
            return false;
        }
    }
    true
}

// Whether the carry of a cell goes to input 3 of the next one. The cell is not the last.
fn has_chain(index: &Index, tile: TileAt, cell: u8) -> bool
    requires cell { cell < 7 }
    ensures { result ≡ has_chain index.now.chip.now tile cell }
{
    let carry = carry_wire(index.chip, tile, cell);
    let input = input_wire(index.chip, tile, cell + 1, 3);
    leads(index, carry, input)
}

// Whether carries go from cell to cell.
#[tactic(auto, using(crate::proofs::Below::next, crate::proofs::Below::none))]
fn has_chains(index: &Index, tile: TileAt) -> bool
    ensures { result ≡ all_below (has_chain index.now.chip.now tile) 7 }
{
    for cell in 0..7 {
        if !has_chain(index, tile, cell) {
            return false;
        }
    }
    true
}

// Whether the tile has a clock, an enable, and a set or reset.
fn has_controls(chip: &Chip, tile: TileAt) -> bool
    ensures { result ≡ has_controls chip.now tile }
{
    has_wire(chip, tile, &clock_name())
        && has_wire(chip, tile, &clock_enable_name())
        && has_wire(chip, tile, &set_reset_name())
}

// Whether the carry into the tile goes to input 3 of its first cell.
fn has_entry(index: &Index, tile: TileAt) -> bool
    ensures { result ≡ has_entry index.now.chip.now tile }
{
    let entry = entry_wire(index.chip, tile);
    let input = input_wire(index.chip, tile, 0, 3);
    leads(index, entry, input)
}

/// Whether the tile is a site: a logic tile with eight cells, their controls, and a carry that goes in and from cell to
/// cell.
pub fn is_site(index: &Index, tile: TileAt) -> bool
    ensures { result ≡ is_site index.now.chip.now tile }
{
    is_logic(index.chip.kind_at(tile))
        && has_cells(index.chip, tile)
        && has_controls(index.chip, tile)
        && has_entry(index, tile)
        && has_chains(index, tile)
}

// Whether the one tile stands directly below the other.
fn is_above(low: TileAt, high: TileAt) -> bool
    ensures { result ≡ is_above low high }
{
    low.x == high.x && u32::from(low.y) + 1 == u32::from(high.y)
}

/// Whether the carry of a tile's last cell goes into the tile above it.
pub fn is_link(index: &Index, low: TileAt, high: TileAt) -> bool
    ensures { result ≡ is_link index.now.chip.now low high }
{
    let into = index.chip.wire_named(high, &carry_in_name());
    let last = carry_wire(index.chip, low, 7);
    let entry = entry_wire(index.chip, high);
    is_above(low, high) && is_same_wire(into, last) && leads(index, into, entry)
}
