//! What is found in chips by names and places: of rows that say one thing twice the first counts, and names count where a tile is.
use crate::asked::{Asked, expect};
use crate::found::Finding;
use ice_base::{RowNo, TileAt, WireNo};
use ice_chip::{Pad, TileKind};
use ice_tests_small_chips::{Change, Sample};
use std::alloc::Global;
use std::process::Abort;

// The places of the lowest row, and one above them.
const TILE_0: TileAt = TileAt { x: 0, y: 0 };

const TILE_1: TileAt = TileAt { x: 1, y: 0 };

const TILE_2: TileAt = TileAt { x: 2, y: 0 };

const TILE_3: TileAt = TileAt { x: 3, y: 0 };

const TILE_4: TileAt = TileAt { x: 4, y: 0 };

const ABOVE: TileAt = TileAt { x: 0, y: 1 };

// Pads by the number of the tile and their own.
const PAD_0_0: Pad = Pad {
    tile: TILE_0,
    pio: 0,
};

const PAD_0_1: Pad = Pad {
    tile: TILE_0,
    pio: 1,
};

const PAD_1_0: Pad = Pad {
    tile: TILE_1,
    pio: 0,
};

const PAD_1_1: Pad = Pad {
    tile: TILE_1,
    pio: 1,
};

const TWO_TILES: [Finding; 5] = [
    Finding::Wires(4),
    Finding::Rows(b"1 0  2 1  1 3"),
    Finding::Parts(2, 3, 16),
    Finding::Tile(1, TILE_1),
    Finding::Group(2, RowNo(2)),
];

const TWO_WAYS: [Finding; 5] = [
    Finding::Wires(7),
    Finding::Rows(b"2 0  2 1  3 0  3 1  4 3  5 2  5 4  6 2  6 4"),
    Finding::Parts(2, 5, 16),
    Finding::Wire(TILE_1, b"hop", Some(WireNo(4))),
    Finding::Wire(TILE_0, b"hop", None),
];

const ONE_WAY: [Finding; 4] = [
    Finding::Wires(5),
    Finding::Rows(b"2 0  2 1  3 2  4 2"),
    Finding::Parts(2, 3, 16),
    Finding::Wire(TILE_1, b"short", Some(WireNo(2))),
];

const KINDS: [Finding; 7] = [
    Finding::Parts(4, 0, 26),
    Finding::Kind(TILE_0, Some(TileKind::Io)),
    Finding::Kind(TILE_1, Some(TileKind::Logic)),
    Finding::Kind(TILE_2, Some(TileKind::RamBottom)),
    Finding::Kind(TILE_3, Some(TileKind::RamTop)),
    Finding::Kind(TILE_4, None),
    Finding::Kind(ABOVE, None),
];

const LOOKED_UP: [Finding; 10] = [
    Finding::Kind(TILE_0, Some(TileKind::Io)),
    Finding::Kind(TILE_2, None),
    Finding::Function(TileKind::Io, b"IoCtrl.IE_0", Some(23)),
    Finding::Function(TileKind::Logic, b"IoCtrl.IE_0", None),
    Finding::Package(b"tiny", Some((2, 2))),
    Finding::Package(b"big", None),
    Finding::Enable(PAD_1_0, Some(PAD_1_0)),
    Finding::Enable(PAD_1_1, None),
    Finding::Global(0, None),
    Finding::Buffers(TILE_0, None),
];

const WIRES: [Finding; 6] = [
    Finding::Wire(TILE_0, b"span", Some(WireNo(1))),
    Finding::Wire(TILE_1, b"span", Some(WireNo(1))),
    Finding::Wire(TILE_1, b"io_1/D_IN_0", Some(WireNo(3))),
    Finding::Wire(TILE_0, b"io_1/D_IN_0", None),
    Finding::Wire(TILE_0, b"none", None),
    Finding::Names(WireNo(1), b"0 0 span  1 0 span"),
];

const PADS: [Finding; 7] = [
    Finding::Package(b"tiny", Some((4, 4))),
    Finding::Pad(b"tiny", 0, Some(PAD_0_0)),
    Finding::Pad(b"tiny", 1, Some(PAD_0_1)),
    Finding::Pad(b"tiny", 3, Some(PAD_1_1)),
    Finding::Pad(b"tiny", 4, None),
    Finding::Pin(b"tiny", b"3", Some(PAD_1_0)),
    Finding::Pin(b"tiny", b"5", None),
];

const FIRST_PIN: [Finding; 2] = [
    Finding::Package(b"tiny", Some((2, 2))),
    Finding::Pin(b"tiny", b"1", Some(PAD_0_0)),
];

// A second pin of the first pad, and a repeated pin that names a pad for the first time.
const PADS_TWICE: [Change; 1] = [(5, b"2 1 0 0\n5 0 0 0\n2 0 0 1\n")];

const THREE_PINS: [Finding; 5] = [
    Finding::Package(b"tiny", Some((3, 2))),
    Finding::Pad(b"tiny", 0, Some(PAD_0_0)),
    Finding::Pad(b"tiny", 1, Some(PAD_1_0)),
    Finding::Pin(b"tiny", b"5", Some(PAD_0_0)),
    Finding::Pin(b"tiny", b"2", Some(PAD_1_0)),
];

// Of input enables and column buffers the first row whose tile can serve counts.
const FIRST_ROWS: [Finding; 3] = [
    Finding::Global(3, Some(TILE_2)),
    Finding::Enable(PAD_0_0, Some(PAD_1_1)),
    Finding::Buffers(TILE_0, Some(TILE_1)),
];

// The rows that counted are away.
const OTHER_ROWS: [Change; 3] = [(3, b""), (7, b""), (11, b"")];

const NEXT_ROWS: [Finding; 3] = [
    Finding::Global(3, Some(TILE_1)),
    Finding::Enable(PAD_0_0, Some(PAD_0_0)),
    Finding::Buffers(TILE_0, Some(TILE_0)),
];

const PLACED_NAMES: [Finding; 5] = [
    Finding::Wire(TILE_2, b"fabout", None),
    Finding::Wires(2),
    Finding::Rows(b""),
    Finding::Names(
        WireNo(0),
        b"0 0 glb_netwk_1  1 0 glb_netwk_1  0 0 glb_netwk_1",
    ),
    Finding::Names(WireNo(1), b""),
];

const NO_BUFFERS: [Finding; 1] = [Finding::Buffers(TILE_0, None)];

// A function of pairs of pads that stands twice, among functions that are read over.
const FOREIGN_TWICE: [Change; 1] = [(
    21,
    b"IoCtrl.LVDS B0[0]\nIoCtrl.IE_2 B0[0]\nIoCtrl.LVDS B1[0]\nPLL.PLLTYPE_0\n",
)];

const FIRST_FUNCTION: [Finding; 4] = [
    Finding::Parts(2, 0, 19),
    Finding::Function(TileKind::Io, b"IoCtrl.LVDS", Some(21)),
    Finding::Function(TileKind::Io, b"IoCtrl.IE_2", None),
    Finding::Function(TileKind::Io, b"PLL.PLLTYPE_0", Some(24)),
];

// Sections that aren't read, with rows of any form, before each part of the text and at its end.
const SECTIONS: [Change; 5] = [
    (
        9,
        b".extra_cell 0 0 PLL
PLLOUT 9 9 9 x
.routing_of_none B99[99]
.io_tile_bitsets
1 2 3
.io_tile_bits 18 16
",
    ),
    (
        26,
        b".extra_cell 0 0 PLL
PLLOUT 9 9 9 x
.routing_of_none B99[99]
.io_tile_bitsets
1 2 3
.net 0
",
    ),
    (
        37,
        b".extra_cell 0 0 PLL
PLLOUT 9 9 9 x
.routing_of_none B99[99]
.io_tile_bitsets
1 2 3
.buffer 0 0 2 B0[0] B1[0]
",
    ),
    (
        40,
        b".iolatch
2 0 1
.extra_bits
0 0 0
.buffer 1 0 3 B1[0]
",
    ),
    (
        44,
        b".extra_cell 0 0 PLL
PLLOUT 9 9 9 x
.routing_of_none B99[99]
.io_tile_bitsets
1 2 3
",
    ),
];

// Comments behind words and alone, lines without words, and blanks of each kind. The last line has no line feed.
const BLANKS: [Change; 6] = [
    (
        1,
        b"\n# a chip\n \t\r\n.device 1k 2 1 5 # with five wires\n",
    ),
    (3, b"\t1  0\r0 0\r\n"),
    (10, b"IOB_0.PINTYPE_0 B0[17] # B16[17]\n"),
    (27, b"0 0 io_0/D_IN_0 #\n\n"),
    (38, b"10 0 # 0\n# 11 9\n"),
    (44, b"#"),
];

// A chip with changes of its text, and what is found in it.
type Case = (Sample, &'static [Change], &'static [Finding]);

// Rows and parts; names, pads and functions that are looked up; and the first row that counts.
const CASES: [Case; 16] = [
    (Sample::TwoTiles, &[], &TWO_TILES),
    (Sample::TwoWays, &[], &TWO_WAYS),
    (Sample::OneWay, &[], &ONE_WAY),
    (Sample::FourKinds, &[], &KINDS),
    (Sample::OneWay, &SECTIONS, &ONE_WAY),
    (Sample::OneWay, &BLANKS, &ONE_WAY),
    (Sample::TwoTiles, &[], &LOOKED_UP),
    (Sample::TwoTiles, &[], &WIRES),
    (Sample::TwoWays, &[], &PADS),
    (Sample::RepeatedRows, &[], &PLACED_NAMES),
    (Sample::OneBuffer, &[], &NO_BUFFERS),
    (Sample::RepeatedPins, &[], &FIRST_PIN),
    (Sample::RepeatedPins, &PADS_TWICE, &THREE_PINS),
    (Sample::RepeatedRows, &[], &FIRST_ROWS),
    (Sample::RepeatedRows, &OTHER_ROWS, &NEXT_ROWS),
    (Sample::Pads, &FOREIGN_TWICE, &FIRST_FUNCTION),
];

// Fails unless this is found in each chip.
fn expect_each(rt: &impl Abort, alloc: Global, cases: &[Case]) {
    for (sample, changes, findings) in cases {
        expect(rt, alloc, *sample, changes, Asked::Found(*findings));
    }
}

#[test]
fn what_is_found_in_chips(rt: HostRuntime) {
    expect_each(&rt, rt.alloc(), &CASES);
}
