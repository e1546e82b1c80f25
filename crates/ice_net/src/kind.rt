//! The kinds of cells.

/// How a flip-flop is set or reset.
#[derive(Clone, Copy, Debug, PartialEq, Eq)]
pub enum Reset {
    /// It is neither set nor reset.
    Nothing,
    /// It becomes 0 at its clock's edge.
    SyncReset,
    /// It becomes 0 at once.
    AsyncReset,
    /// It becomes 1 at its clock's edge.
    SyncSet,
    /// It becomes 1 at once.
    AsyncSet,
}

/// What a cell is.
#[derive(Clone, Copy, PartialEq, Eq)]
pub enum CellKind {
    /// A look-up table of four inputs (SB_LUT4): bit j of `table` with j = I0 + 2 I1 + 4 I2 + 8 I3.
    Lut {
        /// The sixteen bits.
        table: u16,
    },
    /// A logic function of at most four inputs (`.names`): bit j of `table` as for a look-up table.
    Cover {
        /// A bit for each number of the inputs' levels; all other bits are 0.
        table: u16,
        /// The number of inputs, at most 4.
        width: u8,
    },
    /// The carry of an adder (SB_CARRY): the majority of I0, I1 and CI.
    Carry,
    /// A flip-flop (one of the twenty whose names begin with SB_DFF).
    Flop {
        /// Whether it acts at the falling edge of its clock.
        falling: bool,
        /// Whether it has an enable.
        enable: bool,
        /// How it is set or reset.
        reset: Reset,
    },
    /// The buffers of a pad (SB_IO).
    PadCell {
        /// PIN_TYPE, below 64.
        pin_type: u8,
        /// PULLUP.
        pullup: bool,
    },
    /// A global buffer (SB_GB).
    Global,
}
