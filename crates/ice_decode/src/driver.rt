//! What drives a wire through switches.

use ice_base::{RowNo, TileAt, WireNo};

/// A row of switches that is on.
#[derive(Clone, Copy)]
pub struct Switch {
    /// The row's number.
    pub row: RowNo,
    /// The place of its group.
    pub tile: TileAt,
    /// The wire whose level it takes.
    pub source: WireNo,
    /// The wire to which it gives it.
    pub target: WireNo,
}

/// The rows of switches that drive a wire.
#[derive(Clone, Copy)]
pub enum Driver {
    /// No row into the wire is on.
    Nothing,
    /// One is.
    By(Switch),
    /// Two or more are, of which these are the first two: the wire is contended.
    Several(RowNo, RowNo),
}
