//! Configuration bits of a chip: a bit for each tile, row and column, the extra bits in order, and the words that block RAMs hold before
//! the first step.
#![tactic(auto)]

mod bits;
mod contents;
mod grids;
mod laws;
mod tile;

pub use bits::{Bits, blank, is_of_kind};
pub use contents::RamWord;
pub use laws::{
    chip_has_its_bits, chip_has_its_kinds, function_bits_are_those_of_the_name,
    functions_of_other_kinds_are_0,
};
pub use tile::TileBits;
