//! What drives a signal, and what a port drives.

/// What drives a signal.
#[derive(Clone, Copy, PartialEq, Eq)]
pub enum SignalDriver {
    /// Nothing does.
    Nothing,
    /// The pad of the port at this place in the list of ports.
    Pad(usize),
    /// The output of the cell at this place in the list of cells.
    Output(usize),
}

/// What a port drives its pad with.
#[derive(Clone, Copy, PartialEq, Eq)]
pub enum Drive {
    /// It drives nothing: the pad is left to others.
    Off,
    /// It drives the level 0.
    Low,
    /// It drives the level 1.
    High,
}
