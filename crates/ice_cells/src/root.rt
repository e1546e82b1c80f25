//! Where the levels of a design come from.

/// Where a level comes from: the source of a net.
#[derive(Clone, Copy, PartialEq, Eq, Hash)]
pub enum Root {
    /// The pad of the port at this place in the list of ports.
    PadIn(u32),
    /// The output of the cell of this number.
    CellOut(u32),
    /// The output of the global buffer of this number.
    GlobalOut(u32),
    /// The carry of the cell of this number.
    CarryOut(u32),
}

/// What comes into a carry.
#[derive(Clone, Copy)]
pub enum CarryIn {
    /// A constant.
    Fixed(bool),
    /// What a root has.
    Read(Root),
}
