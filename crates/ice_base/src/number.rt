//! Numbers of wires, nets, rows and signals, and places of tiles and bits.

use std::hash::{Hash, Hasher};

/// The number of a wire: a net of the chip database.
#[derive(Clone, Copy, Debug, PartialEq, Eq)]
pub struct WireNo(pub u32);

/// The number of a row of a switch section, counted from 0 over the whole database.
#[derive(Clone, Copy, Debug, PartialEq, Eq)]
pub struct RowNo(pub u32);

/// The number of a net of the design.
#[derive(Clone, Copy, Debug, PartialEq, Eq)]
pub struct NetNo(pub u32);

/// The number of a signal of a netlist, by first appearance.
#[derive(Clone, Copy, Debug, PartialEq, Eq)]
pub struct SignalNo(pub u32);

/// The place of a tile: column `x` and row `y`, both from 0.
#[derive(Clone, Copy, Debug, PartialEq, Eq)]
pub struct TileAt {
    /// The column, from 0 on the left.
    pub x: u16,
    /// The row, from 0 at the bottom.
    pub y: u16,
}

/// A place is hashed as one number, as maps by places are looked up often.
impl Hash for TileAt {
    ghost use Rattle.std.specs.Prelude.{◌+◌, ◌*◌};
    ghost use Rattle.std.specs.Hash as fed;
    ghost use Rattle.std.specs.Cmp.Rules.{hashing};
    ghost use Rattle.std.proofs.Common.{rules};

    ghost hash_input = { λ tile. fed.u32 (tile.x * 65536 + tile.y) };

    ghost respects_eq = { Prim.search (hashing, rules) };

    fn hash<H: Hasher>(&self, state: &mut H) {
        (u32::from(self.x) * 65_536 + u32::from(self.y)).hash(state);
    }
}
