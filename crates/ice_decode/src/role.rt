//! What wires are at the cells, pads and block RAMs of tiles.

use ice_base::TileAt;
use ice_chip::Pad;

/// What a wire is at a tile's cells, pads or block RAM, by its name there, where no row of switches leads into it. A cell is
/// told by its tile and its number there, from 0 to 7.
#[derive(Clone, Copy)]
pub enum Role {
    /// Nothing that gives it a level: it is undriven.
    Plain,
    /// The output of a cell, `lutff_I/out`.
    Output { tile: TileAt, cell: u8 },
    /// The look-up table of a cell, `lutff_I/lout`.
    LookUp { tile: TileAt, cell: u8 },
    /// The carry out of a cell, `lutff_I/cout`.
    CarryOut { tile: TileAt, cell: u8 },
    /// The input of a pad, `io_P/D_IN_0`.
    PadInput(Pad),
    /// An output of a block RAM, `ram/RDATA_K`, by its pin.
    RamOutput(Pad),
    /// A global, `glb_netwk_N`.
    Global(u8),
    /// The carry into the first cell of a tile, `carry_in_mux`.
    CarryIn(TileAt),
    /// The clock enable of a tile, `lutff_global/cen` or `io_global/cen`, or of a port of a block RAM, `ram/RCLKE` or `ram/WCLKE`.
    ClockEnable,
}
