//! What the ports and the global buffers of a design need.
use ice_chip::Pad;

/// The wires that a port needs at its pad, and whether it wants a pull-up where no constraint says so.
#[derive(Clone, Copy)]
pub struct Want {
    /// `D_IN_0`.
    pub input: bool,
    /// `D_OUT_0`.
    pub output: bool,
    /// `OUT_ENB`.
    pub enable: bool,
    /// A pull-up.
    pub pullup: bool,
}

/// As what a global buffer is read by flip-flops, other than as a clock.
#[derive(Clone, Copy)]
pub struct Pins {
    /// As an enable.
    pub enable: bool,
    /// As a set or reset.
    pub reset: bool,
}

/// What decides which globals a global buffer can take.
#[derive(Clone, Copy)]
pub struct Buffer {
    /// The pad whose level it takes, where it takes that of a port.
    pub pad: Option<Pad>,
    /// As what it is read.
    pub pins: Pins,
}
