//! How flip-flops are driven.
ghost use Rattle.std.specs.Prelude.{◌≡◌};
ghost use Rattle.ice_cells.specs.Packed.{enable_input, set_input, flop_by, flop_of};
ghost use Rattle.ice_pack_sinks.specs.Plans.{plan};

use crate::Slices;
use crate::sinks::{enable_sink, plain_sink, sink};
use ice_base::SignalNo;
use ice_cells::Control;
use ice_net::{Cell, CellKind, Reset, signal_at};

// The input at the enable of a flip-flop, if it has one.
pub(crate) fn enable_input(enable: bool, ins: &[Option<SignalNo>]) -> Option<SignalNo>
    ensures { result ≡ enable_input enable ins.now }
{
    if enable { signal_at(ins, 2) } else { None }
}

// The input at the set or reset of a flip-flop, which stands behind the enable, if there is one.
pub(crate) fn set_input(enable: bool, ins: &[Option<SignalNo>]) -> Option<SignalNo>
    ensures { result ≡ set_input enable ins.now }
{
    if enable {
        signal_at(ins, 3)
    } else {
        signal_at(ins, 2)
    }
}

// How a flip-flop is driven, and how it is set or reset.
fn flop_by(
    slices: &Slices<'_>,
    kind: CellKind,
    ins: &[Option<SignalNo>],
) -> Option<(Control, Reset)>
    ensures { result ≡ flop_by (plan slices.now) kind ins.now }
{
    let CellKind::Flop {
        falling,
        enable,
        reset,
    } = kind
    else {
        return None;
    };
    let control = Control {
        clock: plain_sink(slices, signal_at(ins, 0)),
        falling,
        enable: enable_sink(slices, enable_input(enable, ins)),
        reset: sink(slices, set_input(enable, ins)),
    };
    Some((control, reset))
}

// How the flip-flop that is the cell of a number is driven.
pub(crate) fn flop_of(
    slices: &Slices<'_>,
    cells: &[Cell],
    flop: Option<usize>,
) -> Option<(Control, Reset)>
    ensures { result ≡ flop_of (plan slices.now) cells.now flop }
{
    let cell = cells.get(flop?)?;
    flop_by(slices, cell.kind, cell.ins.as_slice())
}
