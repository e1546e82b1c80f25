//! What sections of a chip database say: functions, names of wires, and groups of switches.

use crate::{TileKind, WireText};
use ice_base::{BitAt, Name, RowNo, TileAt, WireNo};
use smallvec::SmallVec;

/// Bits, in the order in which the database names them. A few need no memory of their own.
pub type BitList = SmallVec<BitAt, 8>;

/// One value for each bit of a group. A few need no memory of their own.
pub type ValueList = SmallVec<bool, 8>;

/// A function of the tiles of one kind: a name for configuration bits.
#[derive(Drop)]
pub struct Function {
    /// The kind of tile.
    pub kind: TileKind,
    /// The name, as in `LC_0` or `IoCtrl.IE_1`.
    pub name: Name,
    /// The bits in the order in which the database names them.
    pub bits: BitList,
    /// The number of its line.
    pub line: u32,
}

/// A name of a wire at a place.
#[derive(Drop)]
pub struct NameRow {
    /// The wire.
    pub wire: WireNo,
    /// The place, at which there need not be a tile.
    pub tile: TileAt,
    /// The name.
    pub name: WireText,
    /// The number of its line.
    pub line: u32,
}

/// A row of a group: where the group's bits have these values, the group's wire takes the value of the source.
#[derive(Drop)]
pub struct Row {
    /// One value for each bit of the group.
    pub values: ValueList,
    /// The wire whose value is taken.
    pub source: WireNo,
    /// The number of its line.
    pub line: u32,
}

/// A group of switches in a tile into one wire: one section of the database.
#[derive(Drop)]
pub struct Group {
    /// The place of the group.
    pub tile: TileAt,
    /// The wire that the switches drive.
    pub wire: WireNo,
    /// The bits that choose among the rows; one bit or more.
    pub bits: BitList,
    /// The number of its first row, which is the number of rows of the groups before it.
    pub first: RowNo,
    /// The rows in the order of the text.
    pub rows: Vec<Row>,
    /// The number of the line of its heading.
    pub line: u32,
}
