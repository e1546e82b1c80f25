//! Netlists as they are built.
use crate::claims::expect_that;
use ice_base::{SignalNo, lines_of, number_of};
use ice_net::{Cell, CellKind, Netlist, Port, Signals, Way, kind_named};
use ice_tests_small_chips::{number_at, word_at};
use std::alloc::Global;
use std::process::Abort;

// Names as they are met, each behind its number. One has no byte.
const NAMES: &[u8] = b"0 b\n1 a\n0 b\n2\n1 a";

// Fails unless a name that is met has this number.
fn expect_number(rt: &impl Abort, netlist: &mut Netlist, name: &[u8], number: u32) {
    expect_that(rt, netlist.has_room_for_name(), name);
    let found = netlist.signal(name).expect(rt, "memory");
    expect_that(rt, found == SignalNo(number), name);
}

// Fails unless the names of an empty netlist are numbered as they are met.
fn expect_names_in(rt: &impl Abort, netlist: &mut Netlist) {
    for line in lines_of(NAMES) {
        let name = word_at(line.text, 1);
        expect_number(rt, netlist, name, number_at(line.text, 0));
    }
    expect_that(rt, netlist.signals() == 3, b"signals");
    let second = netlist.name(SignalNo(1));
    expect_that(rt, second == b"a".as_slice(), second);
    expect_that(rt, netlist.find(b"b") == Some(SignalNo(0)), b"b");
    expect_that(rt, netlist.find(b"c").is_none(), b"c");
}

// Fails unless names are numbered as they are met.
fn expect_names(rt: &impl Abort, alloc: Global) {
    let mut netlist = Netlist::new(alloc);
    expect_names_in(rt, &mut netlist);
    drop(netlist);
}

// A cell of a global buffer in line 7 with this input.
fn cell_of(rt: &impl Abort, alloc: Global, signal: SignalNo) -> Cell {
    let kind = kind_named(b"SB_GB").expect(rt, "a kind");
    let ins = Signals::from_vec(vec![in alloc; Some(signal)].expect(rt, "memory"));
    let outs = Signals::from_vec(vec![in alloc; None].expect(rt, "memory"));
    Cell {
        kind,
        line: 7,
        ins,
        outs,
    }
}

// Fails unless a cell is added.
fn expect_added(rt: &impl Abort, netlist: &mut Netlist, cell: Cell) {
    expect_that(rt, cell.is_formed(netlist.signals()), b"formed");
    expect_that(rt, netlist.has_room_for_cell(), b"room");
    netlist.cell(cell).expect(rt, "memory");
    expect_that(rt, netlist.cells().len() == 1, b"added");
}

// Fails unless a port has the way that it was given last, once.
fn expect_port(rt: &impl Abort, netlist: &mut Netlist) -> SignalNo {
    expect_that(rt, netlist.has_room_for_name(), b"room");
    let signal = netlist.signal(b"pin").expect(rt, "memory");
    netlist.port(signal, Way::Output).expect(rt, "memory");
    expect_that(rt, netlist.way_of(signal) == Some(Way::Output), b"port");
    netlist.port(signal, Way::Input).expect(rt, "memory");
    let port = Port {
        signal,
        way: Way::Both,
    };
    expect_that(rt, netlist.ports() == [port].as_slice(), b"port");
    signal
}

// Fails unless ports and cells stand in order.
fn expect_ports_and_cells(rt: &impl Abort, alloc: Global) {
    let mut netlist = Netlist::new(alloc);
    let signal = expect_port(rt, &mut netlist);
    expect_added(rt, &mut netlist, cell_of(rt, alloc, signal));
    drop(netlist);
}

// The flip-flops, each with the number of its inputs, and words that name no cell.
const FLIP_FLOPS: &[u8] = b"SB_DFF 2
SB_DFFE 3
SB_DFFSR 3
SB_DFFR 3
SB_DFFSS 3
SB_DFFS 3
SB_DFFESR 4
SB_DFFER 4
SB_DFFESS 4
SB_DFFES 4
SB_DFFN 2
SB_DFFNE 3
SB_DFFNSR 3
SB_DFFNR 3
SB_DFFNSS 3
SB_DFFNS 3
SB_DFFNESR 4
SB_DFFNER 4
SB_DFFNESS 4
SB_DFFNES 4
SB_DFFNN none
SB_DFFSE none
SB_DFFEE none
DFF none
SB_LUT none
$_DFF_P_ none
";

// Fails unless a flip-flop has so many inputs, and its output behind them.
fn expect_flip_flop(rt: &impl Abort, word: &[u8], ins: usize) {
    let kind = kind_named(word).expect(rt, "a flip-flop");
    expect_that(rt, kind.ins_count() == ins, word);
    expect_that(rt, kind.port_place(b"Q") == Some(ins), word);
}

// Fails unless a word names a flip-flop with so many inputs, or no cell where no number stands.
fn expect_kind(rt: &impl Abort, word: &[u8], ins: &[u8]) {
    match number_of(ins) {
        Some(ins) => expect_flip_flop(rt, word, ins as usize),
        None => expect_that(rt, kind_named(word).is_none(), word),
    }
}

// Fails unless these words name flip-flops with so many inputs, or no cells.
fn expect_kinds(rt: &impl Abort, lines: &[u8]) {
    for line in lines_of(lines) {
        expect_kind(rt, word_at(line.text, 0), word_at(line.text, 1));
    }
}

#[test]
fn netlists_are_built(rt: HostRuntime) {
    expect_names(&rt, rt.alloc());
    expect_ports_and_cells(&rt, rt.alloc());
    expect_kinds(&rt, FLIP_FLOPS);
    let cover = CellKind::Cover { table: 0, width: 1 };
    expect_that(&rt, cover.port_place(b"I0").is_none(), b"cover");
}
