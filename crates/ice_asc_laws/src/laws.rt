//! The law of texts of bits, as the contract of a function that does nothing.
ghost use Rattle.std.specs.Prelude.{◌≡◌, ℕ, List, Ok};
ghost use Rattle.ice_chip.specs.Database.{Parts};
ghost use Rattle.ice_bits.specs.Configuration.{Configuration};
ghost use Rattle.ice_asc.specs.Grammar.{asc_in};
ghost use Rattle.ice_asc_laws.specs.NamedTiles.{worded, SayBits};

/// Where a text says bits of a chip, each line that begins with the word for tiles of a kind names such a tile of the chip, and the
/// tile's rows of bits are the sixteen lines behind it. No tile is named twice, every bit of every other tile is 0, and the extra bits
/// are those of the lines that begin with `.extra_bit`, in order.
pub fn texts_say_rows_of_tiles()
    ensures { (parts : Parts) (text : List ℕ) (k : Configuration) → asc_in parts text ≡ Ok k
        → SayBits parts (worded text) k }
{}
