//! The laws of a chip's look-ups. The functions do nothing: their contracts are the laws.
ghost use Rattle.ice_chip_laws.specs.Laws.{IsLawful, LookupsAreLawful};

use ice_chip::{Chip, lacks_function_is_first, shared_function_is_first};

/// What the look-ups of every chip owe one another: each tile of the list is found with its kind, in one of the columns
/// and rows of the database, which has at most 256 of each; names of wires go both ways; all pin names of a wire are of
/// one pin; tiles have the functions that their kinds need, each with its number of bits; a bit of a function that is
/// read stands in the tiles of its kind, and is of nothing else; groups of switches stand in tiles that have their bits,
/// have one or more of them, and one value for each of them in each row; the number of a switch row is its place; and
/// the tiles that hold column buffers and input enables for others have them, the latter for pad 0 or pad 1.
pub fn lookups_are_lawful()
    ensures { LookupsAreLawful }
{
    shared_function_is_first();
    lacks_function_is_first();
}

/// The look-ups of this chip keep the laws.
pub fn chip_is_lawful(chip: &Chip)
    ensures { IsLawful chip.now }
{
    chip.is_chip();
    lookups_are_lawful();
}
