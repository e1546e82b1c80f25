//! Where the levels of a netlist's signals come from, and how cells are read.

/// Where the level of a signal comes from.
#[derive(Clone, Copy, PartialEq, Eq, Hash)]
pub enum Origin {
    /// A constant.
    Fixed(bool),
    /// The pad of the port at this place in the list of ports.
    Pad(u32),
    /// The output of the cell at this place in the list of cells.
    Made(usize),
}

/// How a cell of the netlist is read.
#[derive(Clone, Copy)]
pub enum Use {
    /// By nothing.
    Nobody,
    /// Once, by the flip-flop at this place, as the level that it takes.
    Taken(usize),
    /// In another way.
    Other,
}
