//! Saying the line of a fault of bits, piece by piece. It takes no memory.
ghost use Rattle.std.specs.Prelude.{◌≡◌, map, decimal, ◌∷◌, []};
ghost use Rattle.ice_desk.specs.Changes.{SameButSaying, SameTest};
ghost use Rattle.ice_flow_frame.specs.Causes.{joined, spaced, names_line, numbers_line, wire_text, bits_line};
ghost use Rattle.ice_desk.specs.Said.{IsSaid};
ghost use Rattle.ice_flow_frame.specs.Pieces.{piece_text, IsLoopless};

use crate::say::{NOTHING, Piece, say_all, say_pieces};
use ice_base::WireNo;
use ice_chip::Pad;
use ice_decode::{DecodeFault, Wires};
use ice_desk::Desk;

// A line of three pieces.
fn short(head: &'static [u8], piece: Piece, tail: &'static [u8]) -> [Piece; 9]
    ensures { joined (map piece_text result)
        ≡ joined (head.now ∷ piece_text piece ∷ tail.now ∷ []) }
{
    let (head, tail) = (Piece::Text(head), Piece::Text(tail));
    [
        head, piece, tail, NOTHING, NOTHING, NOTHING, NOTHING, NOTHING, NOTHING,
    ]
}

// A line of three numbers.
fn numbered(
    head: &'static [u8],
    first: u32,
    middle: &'static [u8],
    second: u32,
    tail: &'static [u8],
    third: u32,
) -> [Piece; 9]
    ensures { joined (map piece_text result)
        ≡ numbers_line head.now first middle.now second tail.now third }
{
    [
        Piece::Text(head),
        Piece::Number(first as u64),
        Piece::Text(middle),
        Piece::Number(second as u64),
        Piece::Text(tail),
        Piece::Number(third as u64),
        Piece::Text(b"\n"),
        NOTHING,
        NOTHING,
    ]
}

// The line of a pad of a wrong type.
fn pin_type_pieces(pad: Pad, value: u8) -> [Piece; 9]
    ensures { joined (map piece_text result) ≡ bits_line (DecodeFault.PinType pad value) }
{
    [
        Piece::Text(b"error 15 bits pintype "),
        Piece::Number(pad.tile.x as u64),
        Piece::Text(b" "),
        Piece::Number(pad.tile.y as u64),
        Piece::Text(b" "),
        Piece::Number(pad.pio as u64),
        Piece::Text(b" value "),
        Piece::Number(value as u64),
        Piece::Text(b"\n"),
    ]
}

// The line of a fault of bits that is no loop.
fn bits_pieces(fault: &DecodeFault) -> [Piece; 9]
    requires { IsLoopless fault.now }
    ensures { joined (map piece_text result) ≡ bits_line fault.now }
{
    match fault {
        DecodeFault::Contention { wire, rows } => {
            let (first, second) = *rows;
            let head = b"error 15 bits contention wire ";
            numbered(head, wire.0, b" rows ", first.0, b" ", second.0)
        }
        DecodeFault::ForeignSource { wire } => {
            let wire = Piece::Number(wire.0 as u64);
            short(b"error 15 bits source wire ", wire, b"\n")
        }
        DecodeFault::ForeignFunction { tile, line } => {
            let head = b"error 15 bits function ";
            numbered(head, tile.x as u32, b" ", tile.y as u32, b" line ", *line)
        }
        DecodeFault::ForeignExtra { extra } => {
            let (bank, x, y) = *extra;
            numbered(b"error 15 bits extra ", bank, b" ", x, b" ", y)
        }
        DecodeFault::PinType { pad, value } => pin_type_pieces(*pad, *value),
        _ => short(b"error 15 bits nomemory\n", NOTHING, b""),
    }
}

// Says the number of a wire after a blank.
fn say_wire<D: Desk>(desk: &mut D, wire: WireNo) -> bool
    ensures same { SameButSaying (D.seen desk.old) (D.seen desk.new) }
    ensures names_read { SameTest (D.may_read desk.old) (D.may_read desk.new) }
    ensures names_written { SameTest (D.may_write desk.old) (D.may_write desk.new) }
    ensures said { IsSaid (D.seen desk.old) (D.seen desk.new) (wire_text wire) result }
{
    say_pieces(desk, &[Piece::Text(b" "), Piece::Number(wire.0 as u64)])
}

// Says the numbers of wires, each after a blank.
#[tactic(auto, using(ice_desk::proofs::Saying::saying_trans, ice_desk::proofs::Desks::same_test_trans))]
fn say_each<D: Desk>(desk: &mut D, wires: &[WireNo]) -> bool
    ensures same { SameButSaying (D.seen desk.old) (D.seen desk.new) }
    ensures names_read { SameTest (D.may_read desk.old) (D.may_read desk.new) }
    ensures names_written { SameTest (D.may_write desk.old) (D.may_write desk.new) }
    ensures said { IsSaid (D.seen desk.old) (D.seen desk.new)
        (joined (map wire_text wires.now)) result }
{
    for wire in wires {
        if !say_wire(desk, *wire) {
            return false;
        }
    }
    true
}

// Says the numbers of wires, each after a blank.
fn say_wires<D: Desk>(desk: &mut D, wires: &Wires) -> bool
    ensures same { SameButSaying (D.seen desk.old) (D.seen desk.new) }
    ensures names_read { SameTest (D.may_read desk.old) (D.may_read desk.new) }
    ensures names_written { SameTest (D.may_write desk.old) (D.may_write desk.new) }
    ensures said { IsSaid (D.seen desk.old) (D.seen desk.new)
        (spaced (map decimal wires.now)) result }
{
    say_each(desk, wires.as_slice())
}

// Says a line that ends with the numbers of wires.
fn say_wires_line<D: Desk>(desk: &mut D, head: &'static [u8], wires: &Wires) -> bool
    ensures same { SameButSaying (D.seen desk.old) (D.seen desk.new) }
    ensures names_read { SameTest (D.may_read desk.old) (D.may_read desk.new) }
    ensures names_written { SameTest (D.may_write desk.old) (D.may_write desk.new) }
    ensures said { IsSaid (D.seen desk.old) (D.seen desk.new)
        (names_line head.now (map decimal wires.now)) result }
{
    if !say_all(desk, head) {
        return false;
    }
    if !say_wires(desk, wires) {
        return false;
    }
    say_all(desk, b"\n")
}

/// Says the line of a fault of bits. Whether no say failed.
pub fn say_bits_fault<D: Desk>(desk: &mut D, fault: &DecodeFault) -> bool
    ensures same { SameButSaying (D.seen desk.old) (D.seen desk.new) }
    ensures names_read { SameTest (D.may_read desk.old) (D.may_read desk.new) }
    ensures names_written { SameTest (D.may_write desk.old) (D.may_write desk.new) }
    ensures said { IsSaid (D.seen desk.old) (D.seen desk.new) (bits_line fault.now) result }
{
    match fault {
        DecodeFault::ChipLoop { wires } => say_wires_line(desk, b"error 15 bits loop", wires),
        fault => say_pieces(desk, &bits_pieces(fault)),
    }
}
