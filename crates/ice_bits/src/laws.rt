//! Laws of configuration bits. The functions do nothing: their contracts are the laws.
ghost use Rattle.std.specs.Prelude.{◌≡◌};
ghost use Rattle.ice_base.specs.declared.number.TileAt.{TileAt};
ghost use Rattle.ice_base.specs.declared.bit.BitAt.{BitAt};
ghost use Rattle.ice_chip.specs.Database.{Parts};
ghost use Rattle.ice_chip.specs.Lookups.{kind_at};
ghost use Rattle.ice_bits.specs.Configuration.{Configuration};
ghost use Rattle.ice_bits.specs.Grids.{IsOf, is_there, is_bit_of, kind_in};
ghost use Rattle.ice_bits.specs.FunctionBits.{ReadsByName};
ghost use Rattle.ice_bits.specs.LackedFunctions.{OtherKindsReadZero};

/// Bits of a chip have exactly the places that the kinds of its tiles have.
pub fn chip_has_its_bits()
    ensures { (parts : Parts) (k : Configuration) → IsOf parts k → (t : TileAt) (b : BitAt)
        → is_there k t b ≡ is_bit_of parts t b }
{}

/// Bits of a chip have the kinds of its tiles.
pub fn chip_has_its_kinds()
    ensures { (parts : Parts) (k : Configuration) → IsOf parts k → (t : TileAt)
        → kind_in k t ≡ kind_at parts t }
{}

/// In a tile of its kind, the bit of one of a chip's functions is the one that the function's name says in the chip.
pub fn function_bits_are_those_of_the_name()
    ensures { ReadsByName }
{}

/// At a place without a tile, or with a tile of another kind, a function has no bits: each of them is read as 0.
pub fn functions_of_other_kinds_are_0()
    ensures { OtherKindsReadZero }
{}
