//! Bits of the tiles of a kind, and their uses.

use crate::TileKind;
use ice_base::BitAt;

/// A bit of the tiles of a kind.
#[derive(Clone, Copy, PartialEq, Eq, Hash)]
pub struct KindBit {
    /// The kind of tile.
    pub kind: TileKind,
    /// The bit.
    pub bit: BitAt,
}

/// One use of a bit, by a function or a group.
#[derive(Clone, Copy)]
pub struct BitUse {
    /// The bit.
    pub place: KindBit,
    /// Whether a read function uses it.
    pub is_read: bool,
    /// The line of the function or group.
    pub line: u32,
}
