//! The places of the ports of each kind of cell, and how many there are.
ghost use Rattle.std.specs.Prelude.{◌≡◌, ◌≤◌, ◌++◌, ◌∷◌, [], false, codes, IfSome, ◌<◌};
ghost use Rattle.ice_net.specs.Kinds.{port_place, place_from, reset_names, ins_count, outs_count};

use crate::{CellKind, Reset};

// The place of a port of SB_LUT4: `I0` to `I3`, or `O`.
fn lut_place(name: &[u8]) -> Option<usize>
    ensures place { result ≡ port_place (CellKind.Lut 0) name.now }
    ensures few { IfSome result (λ place. place < 10) }
{
    match name {
        [b'O'] => Some(4),
        [b'I', digit @ b'0'..=b'3'] => Some(usize::from(*digit - b'0')),
        _ => None,
    }
}

// The place of a port of SB_CARRY.
fn carry_place(name: &[u8]) -> Option<usize>
    ensures place { result ≡ port_place CellKind.Carry name.now }
    ensures few { IfSome result (λ place. place < 10) }
{
    if name == b"I0".as_slice() {
        return Some(0);
    }
    if name == b"I1".as_slice() {
        return Some(1);
    }
    if name == b"CI".as_slice() {
        return Some(2);
    }
    if name == b"CO".as_slice() {
        return Some(3);
    }
    None
}

// The place of a flip-flop's output, where it is this one.
fn output_place(place: usize, name: &[u8]) -> Option<usize>
    requires { place < 10 }
    ensures place { result ≡ place_from place (codes "Q" ∷ []) name.now }
    ensures few { IfSome result (λ place. place < 10) }
{
    if name == b"Q".as_slice() {
        return Some(place);
    }
    None
}

// The place of a flip-flop's set or reset, or of its output behind it, where the first of them has this place.
fn reset_place(place: usize, reset: Reset, name: &[u8]) -> Option<usize>
    requires { place ≤ 3 }
    ensures place { result ≡ place_from place (reset_names reset ++ codes "Q" ∷ []) name.now }
    ensures few { IfSome result (λ place. place < 10) }
{
    let port = match reset {
        Reset::Nothing => return output_place(place, name),
        Reset::SyncReset | Reset::AsyncReset => b"R",
        Reset::SyncSet | Reset::AsyncSet => b"S",
    };
    if name == port.as_slice() {
        return Some(place);
    }
    output_place(place + 1, name)
}

// The place of a port of a flip-flop.
fn flop_place(enable: bool, reset: Reset, name: &[u8]) -> Option<usize>
    ensures place { result ≡ port_place (CellKind.Flop false enable reset) name.now }
    ensures few { IfSome result (λ place. place < 10) }
{
    if name == b"C".as_slice() {
        return Some(0);
    }
    if name == b"D".as_slice() {
        return Some(1);
    }
    if !enable {
        return reset_place(2, reset, name);
    }
    if name == b"E".as_slice() {
        return Some(2);
    }
    reset_place(3, reset, name)
}

// The place of a port of SB_IO.
fn pad_place(name: &[u8]) -> Option<usize>
    ensures place { result ≡ port_place (CellKind.PadCell 0 false) name.now }
    ensures few { IfSome result (λ place. place < 10) }
{
    if name == b"PACKAGE_PIN".as_slice() {
        return Some(0);
    }
    if name == b"D_OUT_0".as_slice() {
        return Some(1);
    }
    if name == b"OUTPUT_ENABLE".as_slice() {
        return Some(2);
    }
    if name == b"D_OUT_1".as_slice() {
        return Some(3);
    }
    if name == b"LATCH_INPUT_VALUE".as_slice() {
        return Some(4);
    }
    if name == b"CLOCK_ENABLE".as_slice() {
        return Some(5);
    }
    if name == b"INPUT_CLK".as_slice() {
        return Some(6);
    }
    if name == b"OUTPUT_CLK".as_slice() {
        return Some(7);
    }
    if name == b"D_IN_0".as_slice() {
        return Some(8);
    }
    if name == b"D_IN_1".as_slice() {
        return Some(9);
    }
    None
}

// The place of a port of SB_GB.
fn global_place(name: &[u8]) -> Option<usize>
    ensures place { result ≡ port_place CellKind.Global name.now }
    ensures few { IfSome result (λ place. place < 10) }
{
    if name == b"USER_SIGNAL_TO_GLOBAL_BUFFER".as_slice() {
        return Some(0);
    }
    if name == b"GLOBAL_BUFFER_OUTPUT".as_slice() {
        return Some(1);
    }
    None
}

impl CellKind {
    /// The place of a port among the inputs and then the outputs of the kind, from 0. None exactly where the kind has
    /// no port of that name; the ports of a cover have no names.
    pub fn port_place(&self, name: &[u8]) -> Option<usize>
        ensures place { result ≡ port_place self.now name.now }
        ensures few { IfSome result (λ place. place < 10) }
    {
        match *self {
            CellKind::Lut { .. } => lut_place(name),
            CellKind::Cover { .. } => None,
            CellKind::Carry => carry_place(name),
            CellKind::Flop { enable, reset, .. } => flop_place(enable, reset, name),
            CellKind::PadCell { .. } => pad_place(name),
            CellKind::Global => global_place(name),
        }
    }

    /// How many inputs the kind has.
    pub fn ins_count(&self) -> usize
        ensures { result ≡ ins_count self.now }
    {
        match *self {
            CellKind::Lut { .. } => 4,
            CellKind::Cover { width, .. } => usize::from(width),
            CellKind::Carry => 3,
            CellKind::Flop { enable, reset, .. } => {
                2 + usize::from(enable) + usize::from(reset != Reset::Nothing)
            }
            CellKind::PadCell { .. } => 8,
            CellKind::Global => 1,
        }
    }

    /// How many outputs the kind has.
    pub fn outs_count(&self) -> usize
        ensures { result ≡ outs_count self.now }
    {
        match *self {
            CellKind::PadCell { .. } => 2,
            _ => 1,
        }
    }
}
