//! What is settled of a RAM, and the levels at its pins.

/// What is settled of a RAM. In mode m a port has 16 / 2^m bits, and m further bits of its address pick them in the word.
#[derive(Clone, Copy, Debug, PartialEq, Eq)]
pub struct Setup {
    /// The mode of the port that reads, below 4.
    pub read_mode: u8,
    /// The mode of the port that writes, below 4.
    pub write_mode: u8,
    /// Whether the port that reads acts at the falling edge of its clock.
    pub read_falls: bool,
    /// Whether the port that writes acts at the falling edge of its clock.
    pub write_falls: bool,
}

/// The levels at the inputs of a RAM in one step.
#[derive(Clone, Copy)]
pub struct Pins {
    /// The clock of the port that reads.
    pub read_clock: bool,
    /// Whether it reads: its enable and the enable of its clock.
    pub read_enable: bool,
    /// Its address, of eleven bits.
    pub read_address: u16,
    /// The clock of the port that writes.
    pub write_clock: bool,
    /// Whether it writes: its enable and the enable of its clock.
    pub write_enable: bool,
    /// Its address, of eleven bits.
    pub write_address: u16,
    /// In mode 0 of the port that writes: which bits of the word stay as they are.
    pub mask: [bool; 16],
    /// What is written.
    pub datum: [bool; 16],
}
