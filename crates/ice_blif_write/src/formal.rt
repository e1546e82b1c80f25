//! The names of a cell's ports, by their places among its inputs and then its outputs.
ghost use Rattle.std.specs.Prelude.{◌≡◌, ◌<◌, ◌∷◌, ◌++◌, [], length, slice_index_or, codes, false};
ghost use Rattle.ice_net.specs.Kinds.{reset_names, enable_names};
ghost use Rattle.ice_blif_write.specs.Text.{port_names};

use ice_net::{CellKind, Reset};

fn lut_name(place: usize) -> &'static [u8]
    requires { place < 5 }
    ensures { result.now ≡ slice_index_or (port_names (CellKind.Lut 0)) place [] }
{
    match place {
        0 => b"I0",
        1 => b"I1",
        2 => b"I2",
        3 => b"I3",
        _ => b"O",
    }
}

fn carry_name(place: usize) -> &'static [u8]
    requires { place < 4 }
    ensures { result.now ≡ slice_index_or (port_names CellKind.Carry) place [] }
{
    match place {
        0 => b"I0",
        1 => b"I1",
        2 => b"CI",
        _ => b"CO",
    }
}

// The set or reset of a flip-flop, and its output behind it.
fn reset_name(reset: Reset, place: usize) -> &'static [u8]
    requires { place < length (reset_names reset ++ codes "Q" ∷ []) }
    ensures { result.now ≡ slice_index_or (reset_names reset ++ codes "Q" ∷ []) place [] }
{
    let name = match reset {
        Reset::Nothing => b"Q",
        Reset::SyncReset | Reset::AsyncReset => b"R",
        Reset::SyncSet | Reset::AsyncSet => b"S",
    };
    if place == 0 { name } else { b"Q" }
}

// The enable of a flip-flop, and what stands behind it.
fn enable_name(enable: bool, reset: Reset, place: usize) -> &'static [u8]
    requires { place < length ((enable_names enable ++ reset_names reset) ++ codes "Q" ∷ []) }
    ensures { result.now
        ≡ slice_index_or ((enable_names enable ++ reset_names reset) ++ codes "Q" ∷ []) place [] }
{
    if !enable {
        return reset_name(reset, place);
    }
    if place == 0 {
        return b"E";
    }
    reset_name(reset, place - 1)
}

fn flop_name(enable: bool, reset: Reset, place: usize) -> &'static [u8]
    requires { place < length (port_names (CellKind.Flop false enable reset)) }
    ensures { result.now ≡ slice_index_or (port_names (CellKind.Flop false enable reset)) place [] }
{
    match place {
        0 => b"C",
        1 => b"D",
        _ => enable_name(enable, reset, place - 2),
    }
}

fn pad_name(place: usize) -> &'static [u8]
    requires { place < 10 }
    ensures { result.now ≡ slice_index_or (port_names (CellKind.PadCell 0 false)) place [] }
{
    match place {
        0 => b"PACKAGE_PIN",
        1 => b"D_OUT_0",
        2 => b"OUTPUT_ENABLE",
        3 => b"D_OUT_1",
        4 => b"LATCH_INPUT_VALUE",
        5 => b"CLOCK_ENABLE",
        6 => b"INPUT_CLK",
        7 => b"OUTPUT_CLK",
        8 => b"D_IN_0",
        _ => b"D_IN_1",
    }
}

fn global_name(place: usize) -> &'static [u8]
    requires { place < 2 }
    ensures { result.now ≡ slice_index_or (port_names CellKind.Global) place [] }
{
    match place {
        0 => b"USER_SIGNAL_TO_GLOBAL_BUFFER",
        _ => b"GLOBAL_BUFFER_OUTPUT",
    }
}

// The name of a port of a kind.
pub(crate) fn port_name(kind: CellKind, place: usize) -> &'static [u8]
    requires { place < length (port_names kind) }
    ensures { result.now ≡ slice_index_or (port_names kind) place [] }
{
    match kind {
        CellKind::Lut { .. } => lut_name(place),
        CellKind::Cover { .. } => b"",
        CellKind::Carry => carry_name(place),
        CellKind::Flop { enable, reset, .. } => flop_name(enable, reset, place),
        CellKind::PadCell { .. } => pad_name(place),
        CellKind::Global => global_name(place),
    }
}
