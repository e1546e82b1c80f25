//! The pads of ports.
use ice_chip::Pad;

/// What a constraint gives to a port.
#[derive(Clone, Copy)]
pub struct Given {
    /// The number of the port.
    pub port: usize,
    /// The pad of the pin.
    pub pad: Pad,
    /// The line.
    pub line: u32,
    /// What the line says of the pull-up, where it says it.
    pub pullup: Option<bool>,
}

/// What a port gets.
#[derive(Clone, Copy)]
pub struct Chosen {
    /// The pad.
    pub pad: Pad,
    /// Whether it has a pull-up.
    pub pullup: bool,
}
