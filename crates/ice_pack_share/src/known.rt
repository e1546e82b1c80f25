//! What has to be known of cells to bring them together.
ghost use Rattle.std.specs.Prelude.{◌≡◌, map, IfOk};
ghost use Rattle.ice_cells.specs.Homes.{part_of, facts_of};
ghost use Rattle.ice_cells.specs.Uses.{maker, taker_of, uses};

use crate::marking::find_uses;
use crate::pairing::find_luts;
use ice_base::NoMemory;
use ice_cells::{Origin, Part, Use, input_origin, is_dropped, is_table_kind};
use ice_net::{Cell, CellKind, Port, signal_at};
use std::alloc::Global;
use std::marker::Model;

/// What is known of each cell of a netlist: what it is in a logic cell, the flip-flop that alone takes its output, and the
/// look-up table that it shares where it is a carry. Contracts see a record of three lists.
#[derive(Drop)]
pub struct Facts {
    parts: Vec<Part>,
    takers: Vec<Option<usize>>,
    luts: Vec<Option<usize>>,
}

impl Model for Facts {
    ghost use Rattle.ice_pack_share.specs.Lists.{FactLists};

    ghost Value = { FactLists };

    ghost view = { λ f.
        record { parts = f.parts.items; takers = f.takers.items; luts = f.luts.items } };
}

impl Facts {
    /// What each cell is in a logic cell. Takes no memory, as the other readers.
    pub fn parts(&self) -> &[Part]
        ensures { result.now ≡ self.now.parts }
    {
        self.parts.as_slice()
    }

    /// The flip-flop that alone takes each cell's output, as the level that it keeps.
    pub fn takers(&self) -> &[Option<usize>]
        ensures { result.now ≡ self.now.takers }
    {
        self.takers.as_slice()
    }

    /// The look-up table whose logic cell each carry shares.
    pub fn luts(&self) -> &[Option<usize>]
        ensures { result.now ≡ self.now.luts }
    {
        self.luts.as_slice()
    }
}

// The cell that makes an origin.
fn maker(origin: Origin) -> Option<usize>
    ensures { result ≡ maker origin }
{
    match origin {
        Origin::Made(j) => Some(j),
        _ => None,
    }
}

// What a cell is in a logic cell.
fn part_of(origins: &[Origin], cell: &Cell) -> Part
    ensures { result ≡ part_of origins.now cell.now }
{
    if is_table_kind(cell.kind) {
        return Part::Table;
    }
    match cell.kind {
        CellKind::Carry => if is_dropped(cell.outs.as_slice()) {
            Part::Nothing
        } else {
            Part::Carry
        },
        CellKind::Flop { .. } => {
            Part::Flop(maker(input_origin(origins, signal_at(cell.ins.as_slice(), 1))))
        }
        _ => Part::Nothing,
    }
}

// What each cell is in a logic cell.
fn find_parts(alloc: Global, cells: &[Cell], origins: &[Origin]) -> Result<Vec<Part>, NoMemory>
    ensures { IfOk result (λ parts. parts.items ≡ map (part_of origins.now) cells.now) }
{
    let mut parts = Vec::new(alloc);
    for cell in cells {
        parts.push(part_of(origins, cell))?;
    }
    Ok(parts)
}

// The flip-flop that alone takes a cell's output.
fn taker_of(read: Use) -> Option<usize>
    ensures { result ≡ taker_of read }
{
    match read {
        Use::Taken(f) => Some(f),
        _ => None,
    }
}

// The flip-flops that alone take the outputs of cells, by how these are read.
fn takers_by(alloc: Global, uses: &[Use]) -> Result<Vec<Option<usize>>, NoMemory>
    ensures { IfOk result (λ takers. takers.items ≡ map taker_of uses.now) }
{
    let mut takers = Vec::new(alloc);
    for read in uses {
        takers.push(taker_of(*read))?;
    }
    Ok(takers)
}

// The flip-flop that alone takes each cell's output.
fn find_takers(
    alloc: Global,
    cells: &[Cell],
    origins: &[Origin],
    bare: &[Port],
) -> Result<Vec<Option<usize>>, NoMemory>
    ensures { IfOk result (λ takers.
        takers.items ≡ map taker_of (uses origins.now cells.now bare.now)) }
{
    let uses = find_uses(alloc, cells, origins, bare)?;
    let takers = takers_by(alloc, &uses)?;
    Ok(takers)
}

/// What is known of cells, by the origins of all signals and the Output ports without an SB_IO.
///
/// # Errors
/// Want of memory alone.
pub fn facts_of(
    alloc: Global,
    cells: &[Cell],
    origins: &[Origin],
    bare: &[Port],
) -> Result<Facts, NoMemory>
    ensures { IfOk result (λ facts. facts ≡ facts_of origins.now cells.now bare.now) }
{
    let parts = find_parts(alloc, cells, origins)?;
    let takers = find_takers(alloc, cells, origins, bare)?;
    let luts = find_luts(alloc, cells, origins)?;
    Ok(Facts {
        parts,
        takers,
        luts,
    })
}
