//! How the carries of a design are read.

/// How the carry of a cell is read.
#[derive(Clone, Copy)]
pub enum Follow {
    /// By nothing.
    Nobody,
    /// By the carry of the cell of this number, and by nothing else but the last input of that cell.
    Next(usize),
    /// In another way.
    Other,
}

/// What reads a root.
#[derive(Clone, Copy)]
pub enum Reader {
    /// The carry of the cell of this number, as what comes into it.
    Into(usize),
    /// The last input of the cell of this number.
    Last(usize),
    /// Anything else.
    Else,
}
