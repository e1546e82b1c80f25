//! Saying the line of a refusal, piece by piece. It takes no memory.
ghost use Rattle.std.specs.Prelude.{◌≡◌, map, decimal, codes, ◌∷◌, []};
ghost use Rattle.ice_desk.specs.Changes.{SameButSaying, SameTest};
ghost use Rattle.ice_flow_frame.specs.Causes.{no_arrangement, joined, faulty_line, named_line, names_line, spaced, line_of, role_name, blif_line, pcf_line, chip_line, net_line, pin_line, place_line, asc_line};
ghost use Rattle.ice_desk.specs.Said.{IsSaid};
ghost use Rattle.ice_flow_frame.specs.Pieces.{piece_text, IsPlain, IsNameless, IsPortless};

use crate::bits_say::say_bits_fault;
use crate::cause::{Cause, FileRole};
use ice_asc::AscFault;
use ice_base::{Name, NetNo, WireNo};
use ice_blif::BlifFault;
use ice_check::{Names, NetFault};
use ice_chip::ChipFault;
use ice_desk::{Desk, say_text};
use ice_pads::PinFault;
use ice_pcf::PcfFault;
use ice_place::PlaceFault;
use itoa::Buffer;

// Says a text. Whether no say failed.
pub(crate) fn say_all<D: Desk>(desk: &mut D, text: &[u8]) -> bool
    ensures same { SameButSaying (D.seen desk.old) (D.seen desk.new) }
    ensures names_read { SameTest (D.may_read desk.old) (D.may_read desk.new) }
    ensures names_written { SameTest (D.may_write desk.old) (D.may_write desk.new) }
    ensures said { IsSaid (D.seen desk.old) (D.seen desk.new) text.now result }
{
    match say_text(desk, text) {
        Ok(()) => true,
        Err(_) => false,
    }
}

// A piece of a line.
#[derive(Clone, Copy)]
pub(crate) enum Piece {
    Text(&'static [u8]),
    Number(u64),
}

// What fills a line of fewer pieces.
pub(crate) const NOTHING: Piece = Piece::Text(b"");

// Says a piece.
fn say_piece<D: Desk>(desk: &mut D, piece: Piece) -> bool
    ensures same { SameButSaying (D.seen desk.old) (D.seen desk.new) }
    ensures names_read { SameTest (D.may_read desk.old) (D.may_read desk.new) }
    ensures names_written { SameTest (D.may_write desk.old) (D.may_write desk.new) }
    ensures said { IsSaid (D.seen desk.old) (D.seen desk.new) (piece_text piece) result }
{
    match piece {
        Piece::Text(text) => say_all(desk, text),
        Piece::Number(number) => {
            let mut buffer = Buffer::new();
            say_all(desk, buffer.format(number).as_bytes())
        }
    }
}

// Says pieces, one after another.
#[tactic(auto, using(ice_desk::proofs::Saying::saying_trans, ice_desk::proofs::Desks::same_test_trans))]
pub(crate) fn say_pieces<D: Desk>(desk: &mut D, pieces: &[Piece]) -> bool
    ensures same { SameButSaying (D.seen desk.old) (D.seen desk.new) }
    ensures names_read { SameTest (D.may_read desk.old) (D.may_read desk.new) }
    ensures names_written { SameTest (D.may_write desk.old) (D.may_write desk.new) }
    ensures said { IsSaid (D.seen desk.old) (D.seen desk.new)
        (joined (map piece_text pieces.now)) result }
{
    for piece in pieces {
        if !say_piece(desk, *piece) {
            return false;
        }
    }
    true
}

// What the lines call a file.
fn role_name(role: FileRole) -> Piece
    ensures { piece_text result ≡ role_name role }
{
    match role {
        FileRole::Chip => Piece::Text(b"chip"),
        FileRole::Pcf => Piece::Text(b"pcf"),
        FileRole::Blif => Piece::Text(b"blif"),
        FileRole::Asc => Piece::Text(b"asc"),
        FileRole::Levels => Piece::Text(b"levels"),
        FileRole::Delays => Piece::Text(b"delays"),
        FileRole::Pins => Piece::Text(b"pins"),
        FileRole::Report => Piece::Text(b"report"),
        FileRole::Standard => Piece::Text(b"standard"),
    }
}

// A line of one piece.
fn one(text: &'static [u8]) -> [Piece; 5]
    ensures { joined (map piece_text result) ≡ joined (text.now ∷ []) }
{
    [Piece::Text(text), NOTHING, NOTHING, NOTHING, NOTHING]
}

// A line of three pieces.
fn three(head: &'static [u8], piece: Piece, tail: &'static [u8]) -> [Piece; 5]
    ensures { joined (map piece_text result)
        ≡ joined (head.now ∷ piece_text piece ∷ tail.now ∷ []) }
{
    [
        Piece::Text(head),
        piece,
        Piece::Text(tail),
        NOTHING,
        NOTHING,
    ]
}

// A line of five pieces.
fn five(head: &'static [u8], piece: Piece, middle: &'static [u8], other: Piece) -> [Piece; 5]
    ensures { joined (map piece_text result)
        ≡ joined (head.now ∷ piece_text piece ∷ middle.now ∷ piece_text other ∷ codes "\n" ∷ []) }
{
    [
        Piece::Text(head),
        piece,
        Piece::Text(middle),
        other,
        Piece::Text(b"\n"),
    ]
}

// A fault of the netlist's text at a line.
fn blif_line(line: u32, cause: &'static [u8]) -> [Piece; 5]
    ensures { joined (map piece_text result)
        ≡ faulty_line (codes "error 3 blif line ") line cause.now }
{
    three(b"error 3 blif line ", Piece::Number(line as u64), cause)
}

// A fault of the text of the pins at a line.
fn pcf_line(line: u32, cause: &'static [u8]) -> [Piece; 5]
    ensures { joined (map piece_text result)
        ≡ faulty_line (codes "error 4 pcf line ") line cause.now }
{
    three(b"error 4 pcf line ", Piece::Number(line as u64), cause)
}

// The line of a fault of the netlist's text.
fn blif_pieces(fault: BlifFault) -> [Piece; 5]
    ensures { joined (map piece_text result) ≡ blif_line fault }
{
    match fault {
        BlifFault::NoModel { line } => blif_line(line, b" nomodel\n"),
        BlifFault::SecondModel { line } => blif_line(line, b" secondmodel\n"),
        BlifFault::UnknownDirective { line } => blif_line(line, b" unknowndirective\n"),
        BlifFault::UnknownCell { line } => blif_line(line, b" unknowncell\n"),
        BlifFault::UnknownPort { line } => blif_line(line, b" unknownport\n"),
        BlifFault::PortTwice { line } => blif_line(line, b" porttwice\n"),
        BlifFault::BadParam { line } => blif_line(line, b" badparam\n"),
        BlifFault::BadCover { line } => blif_line(line, b" badcover\n"),
        BlifFault::TooWide { line } => blif_line(line, b" toowide\n"),
        BlifFault::NoEnd { line } => blif_line(line, b" noend\n"),
        BlifFault::TooMany { line, .. } => blif_line(line, b" toomany\n"),
        BlifFault::NoMemory => blif_line(0, b" nomemory\n"),
    }
}

// The line of a fault of the text of the pins.
fn pcf_pieces(fault: PcfFault) -> [Piece; 5]
    ensures { joined (map piece_text result) ≡ pcf_line fault }
{
    match fault {
        PcfFault::UnknownWord { line } => pcf_line(line, b" unknownword\n"),
        PcfFault::Missing { line } => pcf_line(line, b" missing\n"),
        PcfFault::Extra { line } => pcf_line(line, b" extra\n"),
        PcfFault::NoMemory => pcf_line(0, b" nomemory\n"),
    }
}

// A fault of the chip text at a line.
fn chip_line(line: u32, cause: &'static [u8]) -> [Piece; 5]
    ensures { joined (map piece_text result)
        ≡ faulty_line (codes "error 5 chip line ") line cause.now }
{
    three(b"error 5 chip line ", Piece::Number(line as u64), cause)
}

// The line of a fault of the chip text.
fn chip_pieces(fault: ChipFault) -> [Piece; 5]
    ensures { joined (map piece_text result) ≡ chip_line fault }
{
    match fault {
        ChipFault::NoDevice { line } => chip_line(line, b" nodevice\n"),
        ChipFault::BadNumber { line } => chip_line(line, b" badnumber\n"),
        ChipFault::BadName { line } => chip_line(line, b" badname\n"),
        ChipFault::OutOfRange { line } => chip_line(line, b" outofrange\n"),
        ChipFault::Twice { line, .. } => chip_line(line, b" twice\n"),
        ChipFault::BadBit { line } => chip_line(line, b" badbit\n"),
        ChipFault::BadValues { line } => chip_line(line, b" badvalues\n"),
        ChipFault::SharedFunction { line, .. } => chip_line(line, b" sharedfunction\n"),
        ChipFault::LacksFunction { line } => chip_line(line, b" lacksfunction\n"),
        ChipFault::SharedPin { line, .. } => chip_line(line, b" sharedpin\n"),
        ChipFault::TooMany { .. } => chip_line(0, b" toomany\n"),
        ChipFault::NoMemory => chip_line(0, b" nomemory\n"),
    }
}

// A fault of the text of bits at a line.
fn asc_line(line: u32, cause: &'static [u8]) -> [Piece; 5]
    ensures { joined (map piece_text result)
        ≡ faulty_line (codes "error 14 asc line ") line cause.now }
{
    three(b"error 14 asc line ", Piece::Number(line as u64), cause)
}

// The line of a fault of the text of bits.
fn asc_pieces(fault: AscFault) -> [Piece; 5]
    ensures { joined (map piece_text result) ≡ asc_line fault }
{
    match fault {
        AscFault::NoDevice { line } => asc_line(line, b" nodevice\n"),
        AscFault::OtherDevice { line } => asc_line(line, b" otherdevice\n"),
        AscFault::UnknownTile { line } => asc_line(line, b" unknowntile\n"),
        AscFault::TileTwice { line } => asc_line(line, b" tiletwice\n"),
        AscFault::BadRow { line } => asc_line(line, b" badrow\n"),
        AscFault::UnknownWord { line } => asc_line(line, b" unknownword\n"),
        AscFault::Truncated { line } => asc_line(line, b" truncated\n"),
        AscFault::NoMemory => asc_line(0, b" nomemory\n"),
    }
}

// A fault of the pins at a line.
fn pin_at(head: &'static [u8], line: u32) -> [Piece; 5]
    ensures { joined (map piece_text result) ≡ joined (head.now ∷ decimal line ∷ codes "\n" ∷ []) }
{
    three(head, Piece::Number(line as u64), b"\n")
}

// A fault of two numbers.
fn two(head: &'static [u8], first: u32, middle: &'static [u8], second: u32) -> [Piece; 5]
    ensures { joined (map piece_text result)
        ≡ joined (head.now ∷ decimal first ∷ middle.now ∷ decimal second ∷ codes "\n" ∷ []) }
{
    let first = Piece::Number(first as u64);
    let second = Piece::Number(second as u64);
    five(head, first, middle, second)
}

// The line of a fault of the pins that names no port of a netlist.
fn pin_pieces(fault: &PinFault) -> [Piece; 5]
    requires { IsPortless fault.now }
    ensures { joined (map piece_text result) ≡ pin_line fault.now }
{
    match fault {
        PinFault::NoPackage => one(b"error 7 pin nopackage\n"),
        PinFault::UnknownPin { line } => pin_at(b"error 7 pin unknownpin line ", *line),
        PinFault::UnknownPort { line } => pin_at(b"error 7 pin unknownport line ", *line),
        PinFault::PinTwice { first, second } => {
            two(b"error 7 pin pintwice lines ", *first, b" ", *second)
        }
        PinFault::PortTwice { first, second } => {
            two(b"error 7 pin porttwice lines ", *first, b" ", *second)
        }
        PinFault::TooManyGlobals { need, have } => {
            two(b"error 7 pin globals need ", *need, b" have ", *have)
        }
        PinFault::TooManyRams { need, have } => {
            two(b"error 7 pin rams need ", *need, b" have ", *have)
        }
        _ => one(b"error 7 pin nomemory\n"),
    }
}

// The line of a fault of the places.
fn place_pieces(fault: &PlaceFault) -> [Piece; 5]
    ensures { joined (map piece_text result) ≡ place_line fault.now }
{
    match fault {
        PlaceFault::RunTooLong { length, tallest } => {
            two(b"error 8 full run ", *length, b" tallest ", *tallest)
        }
        PlaceFault::Overfull { need, have } => {
            two(b"error 8 full need ", *need, b" have ", *have)
        }
        PlaceFault::RunUnplaced { run, length } => {
            two(b"error 8 full unplaced ", *run, b" length ", *length)
        }
        PlaceFault::NoMemory => one(b"error 8 full nomemory\n"),
    }
}

// The line of a refusal that names no signal or port of a netlist and no wires, and nothing where the work is done.
fn line_pieces(cause: &Cause) -> [Piece; 5]
    requires { IsPlain cause.now }
    ensures { joined (map piece_text result) ≡ line_of cause.now }
{
    match cause {
        Cause::Good { .. } | Cause::BadNet(_) | Cause::BadPin(_) | Cause::BadBits(_) => one(b""),
        Cause::Usage => one(b"error 2 usage\n"),
        Cause::BadBlif(fault) => blif_pieces(*fault),
        Cause::BadPcf(fault) => pcf_pieces(*fault),
        Cause::BadChip(fault) => chip_pieces(*fault),
        Cause::Overfull(fault) => place_pieces(fault),
        Cause::Unreachable { net, sink, .. } => unreachable_pieces(*net, *sink),
        Cause::GaveUp { tallies, .. } => {
            let rounds = Piece::Number(tallies.len() as u64);
            three(b"error 10 gaveup rounds ", rounds, b"\n")
        }
        Cause::ReadFault { role } => three(b"error 11 read ", role_name(*role), b"\n"),
        Cause::WriteFault { role, put } => {
            let put = Piece::Number(*put);
            five(b"error 12 write ", role_name(*role), b" put ", put)
        }
        Cause::NoMemory => one(b"error 13 memory\n"),
        Cause::BadAsc(fault) => asc_pieces(*fault),
        Cause::TooLong { role, limit } => {
            let limit = Piece::Number(*limit as u64);
            five(b"error 16 long ", role_name(*role), b" limit ", limit)
        }
        Cause::BadLevels { line } => {
            three(b"error 17 levels line ", Piece::Number(*line as u64), b"\n")
        }
        Cause::BadDelays { line } => {
            three(b"error 19 delays line ", Piece::Number(*line as u64), b"\n")
        }
    }
}

// The line of a sink that no walk leads to.
fn unreachable_pieces(net: NetNo, sink: WireNo) -> [Piece; 5]
    ensures { joined (map piece_text result) ≡ line_of (Cause.Unreachable no_arrangement net sink) }
{
    two(b"error 9 unreachable net ", net.0, b" sink ", sink.0)
}

// Says a text and then a name.
fn say_named<D: Desk>(desk: &mut D, head: &'static [u8], name: &Name) -> bool
    ensures same { SameButSaying (D.seen desk.old) (D.seen desk.new) }
    ensures names_read { SameTest (D.may_read desk.old) (D.may_read desk.new) }
    ensures names_written { SameTest (D.may_write desk.old) (D.may_write desk.new) }
    ensures said { IsSaid (D.seen desk.old) (D.seen desk.new)
        (joined (head.now ∷ name.now ∷ [])) result }
{
    if !say_all(desk, head) {
        return false;
    }
    say_all(desk, name.as_bytes())
}

// Says names, each after a blank.
fn say_names<D: Desk>(desk: &mut D, names: &Names) -> bool
    ensures same { SameButSaying (D.seen desk.old) (D.seen desk.new) }
    ensures names_read { SameTest (D.may_read desk.old) (D.may_read desk.new) }
    ensures names_written { SameTest (D.may_write desk.old) (D.may_write desk.new) }
    ensures said { IsSaid (D.seen desk.old) (D.seen desk.new) (spaced names.now) result }
{
    for name in names.as_slice() {
        if !say_named(desk, b" ", name) {
            return false;
        }
    }
    true
}

// Says a line that ends with a name.
fn say_name_line<D: Desk>(desk: &mut D, head: &'static [u8], name: &Name) -> bool
    ensures same { SameButSaying (D.seen desk.old) (D.seen desk.new) }
    ensures names_read { SameTest (D.may_read desk.old) (D.may_read desk.new) }
    ensures names_written { SameTest (D.may_write desk.old) (D.may_write desk.new) }
    ensures said { IsSaid (D.seen desk.old) (D.seen desk.new)
        (named_line head.now name.now) result }
{
    if !say_named(desk, head, name) {
        return false;
    }
    say_all(desk, b"\n")
}

// Says a line that ends with names.
fn say_names_line<D: Desk>(desk: &mut D, head: &'static [u8], names: &Names) -> bool
    ensures same { SameButSaying (D.seen desk.old) (D.seen desk.new) }
    ensures names_read { SameTest (D.may_read desk.old) (D.may_read desk.new) }
    ensures names_written { SameTest (D.may_write desk.old) (D.may_write desk.new) }
    ensures said { IsSaid (D.seen desk.old) (D.seen desk.new)
        (names_line head.now names.now) result }
{
    if !say_all(desk, head) {
        return false;
    }
    if !say_names(desk, names) {
        return false;
    }
    say_all(desk, b"\n")
}

// The line of a fault of the netlist that names no signal or port.
fn fault_pieces(fault: &NetFault) -> [Piece; 5]
    requires { IsNameless fault.now }
    ensures { joined (map piece_text result) ≡ net_line fault.now }
{
    match fault {
        NetFault::PinTypeOut { line, value } => {
            let line = Piece::Number(*line as u64);
            let value = Piece::Number(*value as u64);
            five(b"error 6 net pintype line ", line, b" value ", value)
        }
        NetFault::PinNotPort { line } => {
            let line = Piece::Number(*line as u64);
            three(b"error 6 net pinnotport line ", line, b"\n")
        }
        _ => one(b"error 6 net nomemory\n"),
    }
}

// Says the line of a fault of the netlist.
fn say_fault<D: Desk>(desk: &mut D, fault: &NetFault) -> bool
    ensures same { SameButSaying (D.seen desk.old) (D.seen desk.new) }
    ensures names_read { SameTest (D.may_read desk.old) (D.may_read desk.new) }
    ensures names_written { SameTest (D.may_write desk.old) (D.may_write desk.new) }
    ensures said { IsSaid (D.seen desk.old) (D.seen desk.new) (net_line fault.now) result }
{
    match fault {
        NetFault::Undriven { signal } => say_name_line(desk, b"error 6 net undriven ", signal),
        NetFault::DrivenTwice { signal } => say_name_line(desk, b"error 6 net twice ", signal),
        NetFault::Loop { signals } => say_names_line(desk, b"error 6 net loop", signals),
        NetFault::PadShared { port } => say_name_line(desk, b"error 6 net padshared ", port),
        NetFault::InoutBare { port } => say_name_line(desk, b"error 6 net inoutbare ", port),
        fault => say_pieces(desk, &fault_pieces(fault)),
    }
}

// Says the line of a fault of the pins.
fn say_pin_fault<D: Desk>(desk: &mut D, fault: &PinFault) -> bool
    ensures same { SameButSaying (D.seen desk.old) (D.seen desk.new) }
    ensures names_read { SameTest (D.may_read desk.old) (D.may_read desk.new) }
    ensures names_written { SameTest (D.may_write desk.old) (D.may_write desk.new) }
    ensures said { IsSaid (D.seen desk.old) (D.seen desk.new) (pin_line fault.now) result }
{
    match fault {
        PinFault::NoPadLeft { port } => say_name_line(desk, b"error 7 pin nopad ", port),
        PinFault::PadLacks { port } => say_name_line(desk, b"error 7 pin padlacks ", port),
        fault => say_pieces(desk, &pin_pieces(fault)),
    }
}

/// Says the line of a refusal, and nothing where the work is done. Whether no say failed.
pub fn say_line<D: Desk>(desk: &mut D, cause: &Cause) -> bool
    ensures same { SameButSaying (D.seen desk.old) (D.seen desk.new) }
    ensures names_read { SameTest (D.may_read desk.old) (D.may_read desk.new) }
    ensures names_written { SameTest (D.may_write desk.old) (D.may_write desk.new) }
    ensures said { IsSaid (D.seen desk.old) (D.seen desk.new) (line_of cause.now) result }
{
    match cause {
        Cause::BadNet(fault) => say_fault(desk, fault),
        Cause::BadPin(fault) => say_pin_fault(desk, fault),
        Cause::BadBits(fault) => say_bits_fault(desk, fault),
        cause => say_pieces(desk, &line_pieces(cause)),
    }
}
