//! What the inputs of a netlist's cells read, and which cells become look-up tables.
ghost use Rattle.std.specs.Prelude.{◌≡◌};
ghost use Rattle.ice_cells.specs.Origins.{input_origin, is_table_kind};
ghost use Rattle.ice_cells.specs.Uses.{dropped};

use crate::Origin;
use ice_base::SignalNo;
use ice_net::{CellKind, signal_at};

/// The origin of what an input reads; a missing input reads 0.
pub fn input_origin(origins: &[Origin], input: Option<SignalNo>) -> Origin
    ensures { result ≡ input_origin origins.now input }
{
    let Some(signal) = input else {
        return Origin::Fixed(false);
    };
    let s = signal.0 as usize;
    if s < origins.len() {
        origins[s]
    } else {
        Origin::Fixed(false)
    }
}

/// Whether a carry with these outputs is dropped, since its own is not connected.
pub fn is_dropped(outs: &[Option<SignalNo>]) -> bool
    ensures { result ≡ dropped outs.now }
{
    signal_at(outs, 0).is_none()
}

/// Whether a cell is a look-up table, or a cover that is no constant and passes no input on.
pub fn is_table_kind(kind: CellKind) -> bool
    ensures { result ≡ is_table_kind kind }
{
    match kind {
        CellKind::Lut { .. } => true,
        CellKind::Cover { table, width } => width != 0 && !(width == 1 && table == 2),
        _ => false,
    }
}
