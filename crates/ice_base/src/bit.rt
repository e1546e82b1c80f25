//! Places of configuration bits.

use std::hash::{Hash, Hasher};

/// The place of a configuration bit in its tile.
#[derive(Clone, Copy, Debug, Default, PartialEq, Eq)]
pub struct BitAt {
    /// The line of the tile's bits, from 0.
    pub row: u8,
    /// The place in that line, from 0.
    pub col: u8,
}

/// A place is hashed as one number, as maps by places are looked up often.
impl Hash for BitAt {
    ghost use Rattle.std.specs.Prelude.{◌+◌, ◌*◌};
    ghost use Rattle.std.specs.Hash as fed;
    ghost use Rattle.std.specs.Cmp.Rules.{hashing};
    ghost use Rattle.std.proofs.Common.{rules};

    ghost hash_input = { λ bit. fed.u16 (bit.row * 256 + bit.col) };

    ghost respects_eq = { Prim.search (hashing, rules) };

    fn hash<H: Hasher>(&self, state: &mut H) {
        (u16::from(self.row) * 256 + u16::from(self.col)).hash(state);
    }
}
