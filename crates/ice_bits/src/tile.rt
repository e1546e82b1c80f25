//! The configuration bits of one tile.
ghost use Rattle.std.specs.Prelude.{◌≡◌, [], ◌∷◌, ◌++◌, length, slice_set, IfOk, OnOk, OnErr};
ghost use Rattle.ice_bits.specs.Configuration.{bit_in};
ghost use Rattle.ice_bits.specs.Grids.{is_in, blank_rows};
ghost use Rattle.ice_bits.specs.Rewriting.{rows_with};
ghost use Rattle.ice_bits.specs.TileRows.{rows_view};

use ice_base::{BitAt, NoMemory};
use std::alloc::Global;
use std::marker::Model;

/// How many rows of bits a tile has.
const ROWS: usize = 16;

/// The rows of bits of a tile. Contracts see them as the list of the rows.
#[derive(Drop)]
pub struct TileBits {
    rows: Vec<Vec<bool>>,
}

impl Model for TileBits {
    ghost use Rattle.std.specs.Prelude.{List, Bool};
    ghost use Rattle.ice_bits.specs.TileRows.{rows_view};

    ghost Value = { List (List Bool) };

    ghost view = { λ tile. rows_view tile.rows.items };
}

// Writes one bit of a row, where there is such a place.
#[tactic(auto, using(crate::proofs::RowWrites::set_past))]
fn write_in_row(row: &mut Vec<bool>, col: usize, value: bool)
    ensures { row.new.items ≡ slice_set row.old.items col value }
{
    if col < row.len() {
        row[col] = value;
    }
}

// Writes one bit, where there is such a place.
fn write_in(rows: &mut [Vec<bool>], bit: BitAt, value: bool)
    ensures { rows_view rows.new ≡ rows_with bit value (rows_view rows.old) }
{
    let at = usize::from(bit.row);
    if at < rows.len() {
        let row = &mut rows[at];
        write_in_row(row, usize::from(bit.col), value);
    }
}

impl TileBits {
    /// No rows yet. It takes no memory.
    pub fn new(alloc: Global) -> TileBits
        ensures { result ≡ [] }
    {
        TileBits {
            rows: Vec::new(alloc),
        }
    }

    /// The bits of a tile with so many columns, all 0.
    pub fn blank(alloc: Global, columns: u8) -> Result<TileBits, NoMemory>
        ensures { IfOk result (λ rows. rows ≡ blank_rows columns) }
    {
        let mut rows = Vec::with_capacity(alloc, ROWS)?;
        for _row in 0..ROWS {
            rows.push(vec![in alloc; false; usize::from(columns)]?)?;
        }
        Ok(TileBits { rows })
    }

    /// An equal copy. It fails for want of memory alone.
    pub fn copy(&self, alloc: Global) -> Result<TileBits, NoMemory>
        ensures { IfOk result (λ copy. copy ≡ self.now) }
    {
        let rows = Vec::from_clones(alloc, &self.rows)?;
        Ok(TileBits { rows })
    }

    /// Puts a row behind the others. After want of memory there is no such row.
    pub fn push(&mut self, row: Vec<bool>) -> Result<(), NoMemory>
        ensures pushed { OnOk result (self.new ≡ self.old ++ row.items ∷ []) }
        ensures refused { OnErr result (self.new ≡ self.old) }
    {
        self.rows.push(row)?;
        Ok(())
    }

    /// The rows from the first to the last.
    pub fn rows(&self) -> &[Vec<bool>]
        ensures { rows_view result.now ≡ self.now }
    {
        &self.rows
    }

    /// Whether the tile has a bit at this place.
    pub fn has(&self, bit: BitAt) -> bool
        ensures { result ≡ is_in self.now bit }
    {
        match self.rows.get(usize::from(bit.row)) {
            None => false,
            Some(row) => usize::from(bit.col) < row.len(),
        }
    }

    /// The bit at a place; 0 where the tile has no such place.
    pub fn get(&self, bit: BitAt) -> bool
        ensures { result ≡ bit_in self.now bit }
    {
        let Some(row) = self.rows.get(usize::from(bit.row)) else {
            return false;
        };
        row.get(usize::from(bit.col)).copied().unwrap_or(false)
    }

    /// Writes the bit at a place, where the tile has such a place.
    pub(crate) fn write(&mut self, bit: BitAt, value: bool)
        ensures { self.new ≡ rows_with bit value self.old }
    {
        write_in(&mut self.rows, bit, value);
    }
}
