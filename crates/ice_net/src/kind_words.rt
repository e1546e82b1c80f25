//! The words that name the kinds of cells.
ghost use Rattle.std.specs.Prelude.{◌≡◌, IfSome};
ghost use Rattle.ice_net.specs.Kinds.{kind_of, flop_of, edge_flop_of, reset_named};
ghost use Rattle.ice_net.specs.Formed.{IsGateKind};

use crate::{CellKind, Reset};
use ice_base::begins_with;

// How a flip-flop is set or reset, by the end of its word.
fn reset_named(word: &[u8]) -> Option<Reset>
    ensures { result ≡ reset_named word.now }
{
    if word.is_empty() {
        return Some(Reset::Nothing);
    }
    if word == b"SR".as_slice() {
        return Some(Reset::SyncReset);
    }
    if word == b"R".as_slice() {
        return Some(Reset::AsyncReset);
    }
    if word == b"SS".as_slice() {
        return Some(Reset::SyncSet);
    }
    if word == b"S".as_slice() {
        return Some(Reset::AsyncSet);
    }
    None
}

// The flip-flop of that edge, by the rest of its word.
fn edge_flop(falling: bool, word: &[u8]) -> Option<CellKind>
    ensures kind { result ≡ edge_flop_of falling word.now }
    ensures gate { IfSome result IsGateKind }
{
    let enable = begins_with(b'E', word);
    let rest = if enable { &word[1..] } else { word };
    let reset = reset_named(rest)?;
    Some(CellKind::Flop {
        falling,
        enable,
        reset,
    })
}

// The flip-flop, by its word behind `SB_DFF`.
fn flop(word: &[u8]) -> Option<CellKind>
    ensures kind { result ≡ flop_of word.now }
    ensures gate { IfSome result IsGateKind }
{
    if begins_with(b'N', word) {
        return edge_flop(true, &word[1..]);
    }
    edge_flop(false, word)
}

/// The kind that a word names, with parameters of 0. None exactly where it names no kind.
pub fn kind_named(word: &[u8]) -> Option<CellKind>
    ensures kind { result ≡ kind_of word.now }
    ensures gate { IfSome result IsGateKind }
{
    if word == b"SB_LUT4".as_slice() {
        return Some(CellKind::Lut { table: 0 });
    }
    if word == b"SB_CARRY".as_slice() {
        return Some(CellKind::Carry);
    }
    if word == b"SB_IO".as_slice() {
        return Some(CellKind::PadCell {
            pin_type: 0,
            pullup: false,
        });
    }
    if word == b"SB_GB".as_slice() {
        return Some(CellKind::Global);
    }
    let rest = word.strip_prefix(b"SB_DFF".as_slice())?;
    flop(rest)
}
