//! Sample chips, line by line and by their counts. What is expected was worked out by hand from the rule, and the beginning
//! of the smallest chip besides by another program.
use crate::asked::{Asked, expect_of};
use crate::claims::expect_that;
use ice_base::lines_of;
use ice_chip::{Chip, TileKind};
use ice_sample::sample_chip;
use std::alloc::Global;
use std::process::Abort;

const BEGINNING: &str = ".device 1k 4 4 1040
.pins sample
1 1 0 0
2 1 0 1
3 2 0 0
4 2 0 1
5 0 1 0
6 0 1 1
7 3 1 0
8 3 1 1
9 0 2 0
10 0 2 1
11 3 2 0
12 3 2 1
13 1 3 0
14 1 3 1
15 2 3 0
16 2 3 1
.gbufin
1 0 0
2 0 1
0 1 2
3 1 3
0 2 4
3 2 5
1 3 6
2 3 7
.ieren
1 0 0 1 0 0
1 0 1 1 0 1
2 0 0 2 0 0
2 0 1 2 0 1
0 1 0 0 1 0
0 1 1 0 1 1
3 1 0 3 1 0
3 1 1 3 1 1
0 2 0 0 2 0
0 2 1 0 2 1
3 2 0 3 2 0
3 2 1 3 2 1
1 3 0 1 3 0
1 3 1 1 3 1
2 3 0 2 3 0
2 3 1 2 3 1
.colbuf
1 1 1 1
2 1 2 1
1 2 1 2
2 2 2 2
.io_tile 1 0
.io_tile 2 0
.io_tile 0 1
.logic_tile 1 1
.logic_tile 2 1
.io_tile 3 1
.io_tile 0 2
.logic_tile 1 2
.logic_tile 2 2
.io_tile 3 2
.io_tile 1 3
.io_tile 2 3
.io_tile_bits 18 16
IOB_0.PINTYPE_0 B0[0]
IOB_0.PINTYPE_1 B0[1]
IOB_0.PINTYPE_2 B0[2]
IOB_0.PINTYPE_3 B0[3]
IOB_0.PINTYPE_4 B0[4]
IOB_0.PINTYPE_5 B0[5]
IOB_1.PINTYPE_0 B0[6]
IOB_1.PINTYPE_1 B0[7]
IOB_1.PINTYPE_2 B0[8]
IOB_1.PINTYPE_3 B0[9]
IOB_1.PINTYPE_4 B0[10]
IOB_1.PINTYPE_5 B0[11]
IoCtrl.IE_0 B0[12]
IoCtrl.REN_0 B0[13]
IoCtrl.IE_1 B0[14]
IoCtrl.REN_1 B0[15]
.logic_tile_bits 54 16
LC_0 B0[0] B0[1] B0[2] B0[3] B0[4] B0[5] B0[6] B0[7] B0[8] B0[9] B0[10] B0[11] B0[12] B0[13] B0[14] B0[15] B0[16] B0[17] B0[18] B0[19]
";

// The text of the smallest chip.
fn smallest(rt: &impl Abort, alloc: Global) -> Vec<u8> {
    let mut text = Vec::new(alloc);
    sample_chip(alloc, 4, 4, &mut text).expect(rt, "memory");
    text
}

// Whether a text has these lines, one behind the other.
fn has_lines(text: &[u8], lines: &[u8]) -> bool {
    if lines.is_empty() {
        return false;
    }
    for window in text.windows(lines.len()) {
        if window == lines {
            return true;
        }
    }
    false
}

// Fails unless a text has each of these groups of lines.
fn expect_groups(rt: &impl Abort, text: &[u8], groups: &[&str]) {
    for lines in groups {
        expect_that(rt, has_lines(text, lines.as_bytes()), b"groups");
    }
}

// Fails unless a text begins with the lines of another.
fn expect_beginning(rt: &impl Abort, text: &[u8], beginning: &str) {
    let mut found = lines_of(text);
    for line in lines_of(beginning.as_bytes()) {
        let next = found.next().expect(rt, "a line more");
        expect_that(rt, next.text == line.text, b"beginning");
    }
}

// Functions, whose bits follow one another.
const FUNCTIONS: [&str; 3] = [
    "\nLC_2 B0[40] B0[41] B0[42] B0[43] B0[44] B0[45] B0[46] B0[47] B0[48] B0[49] B0[50] B0[51] B0[52] B0[53] B1[0] B1[1] B1[2] B1[3] B1[4] B1[5]\nLC_3 B1[6] ",
    "\nNegClk B2[52]\nCarryInSet B2[53]\nColBufCtrl.glb_netwk_0 B3[0]\nColBufCtrl.glb_netwk_1 B3[1]\n",
    "\nColBufCtrl.glb_netwk_7 B3[7]\n.net 0\n",
];

// Nets with their names.
const NETS: [&str; 7] = [
    "\n.net 0\n1 0 glb_netwk_0\n2 0 glb_netwk_0\n0 1 glb_netwk_0\n1 1 glb_netwk_0\n",
    "\n1 3 glb_netwk_7\n2 3 glb_netwk_7\n.net 8\n1 0 io_0/D_IN_0\n.net 9\n1 0 io_0/D_OUT_0\n.net 10\n1 0 io_0/OUT_ENB\n.net 11\n1 0 io_1/D_IN_0\n.net 12\n1 0 io_1/D_OUT_0\n.net 13\n1 0 io_1/OUT_ENB\n.net 14\n1 0 fabout\n.net 15\n1 0 trk_0\n.net 16\n",
    "\n.net 78\n1 0 trk_63\n.net 79\n2 0 io_0/D_IN_0\n",
    "\n.net 221\n1 1 lutff_0/in_0\n.net 222\n1 1 lutff_0/in_1\n.net 223\n1 1 lutff_0/in_2\n.net 224\n1 1 lutff_0/in_3\n.net 225\n1 1 lutff_0/out\n.net 226\n1 1 lutff_0/cout\n.net 227\n1 1 lutff_1/in_0\n",
    "\n.net 268\n1 1 lutff_7/cout\n1 2 carry_in\n.net 269\n1 1 lutff_global/clk\n.net 270\n1 1 lutff_global/cen\n.net 271\n1 1 lutff_global/s_r\n.net 272\n1 1 carry_in_mux\n.net 273\n1 1 trk_0\n",
    "\n.net 642\n1 2 lutff_7/cout\n.net 643\n",
    "\n.net 1039\n2 3 trk_63\n.buffer 1 0 15 ",
];

// Switches into tracks.
const TRACKS: [&str; 2] = [
    "\n.buffer 1 0 15 B0[16] B0[17] B1[0]\n001 8\n010 11\n011 86\n100 273\n.buffer 1 0 16 B1[1] B1[2] B1[3]\n",
    "\n.buffer 1 1 278 B3[28] B3[29] B3[30] B3[31]\n0001 225\n0010 231\n0011 237\n0100 243\n0101 249\n0110 255\n0111 261\n1000 267\n1001 162\n1010 394\n1011 20\n1100 652\n.buffer 1 1 279 ",
];

// Switches into inputs of cells.
const INPUTS: [&str; 3] = [
    "\n.buffer 1 1 224 B8[6] B8[7] B8[8] B8[9]\n0001 276\n0010 285\n0011 294\n0100 303\n0101 312\n0110 321\n0111 330\n1000 275\n1001 272\n.buffer 1 1 227 ",
    "\n.buffer 1 1 236 B8[38] B8[39] B8[40] B8[41]\n0001 284\n0010 293\n0011 302\n0100 311\n0101 320\n0110 329\n0111 274\n1000 283\n1001 232\n.buffer 1 1 239 ",
    "\n.buffer 1 1 223 B8[2] B8[3] B8[4] B8[5]\n0001 275\n0010 284\n0011 293\n0100 302\n0101 311\n0110 320\n0111 329\n1000 274\n.buffer 1 1 224 ",
];

// Switches into the controls of a tile.
const CONTROLS: [&str; 3] = [
    "\n.buffer 1 1 269 B10[14] B10[15] B10[16] B10[17] B10[18]\n00001 0\n00010 1\n00011 2\n00100 3\n00101 4\n00110 5\n00111 6\n01000 7\n01001 305\n01010 314\n01011 323\n01100 332\n01101 277\n01110 286\n01111 295\n10000 304\n.buffer 1 1 270 ",
    "\n.buffer 1 1 270 B10[19] B10[20] B10[21] B10[22] B10[23]\n00001 1\n00010 3\n00011 5\n00100 7\n00101 306\n00110 315\n00111 324\n01000 333\n01001 278\n01010 287\n01011 296\n01100 305\n.buffer 1 1 271 ",
    "\n.buffer 1 1 271 B10[24] B10[25] B10[26] B10[27] B10[28]\n00001 0\n00010 2\n00011 4\n00100 6\n00101 307\n00110 316\n00111 325\n01000 334\n01001 279\n01010 288\n01011 297\n01100 306\n.buffer 2 1 389 B3[8] B3[9] B3[10] B3[11]\n",
];

// Fails unless carries enter the logic tiles in row 2, and none those in row 1.
fn expect_carries(rt: &impl Abort, text: &[u8]) {
    expect_groups(
        rt,
        text,
        &["\n.buffer 1 2 646 B10[29]\n1 268\n.buffer 2 2 "],
    );
    expect_that(rt, !has_lines(text, b"\n.buffer 1 1 272 "), b"carries");
}

// Switches into pins of IO tiles.
const PINS: [&str; 2] = [
    "\n.buffer 1 0 9 B11[10] B11[11] B11[12] B11[13]\n0001 15\n0010 24\n0011 33\n0100 42\n0101 51\n0110 60\n0111 69\n1000 78\n.buffer 1 0 10 ",
    "\n.buffer 1 0 14 B12[8] B12[9] B12[10] B12[11]\n0001 19\n0010 28\n0011 37\n0100 46\n0101 55\n0110 64\n0111 73\n1000 18\n.buffer 2 0 86 ",
];

/// How many lines begin so.
pub fn count_of(text: &[u8], beginning: &[u8]) -> u32 {
    let mut count: u32 = 0;
    for line in lines_of(text) {
        if line.text.starts_with(beginning) {
            count = count.saturating_add(1);
        }
    }
    count
}

// Fails unless a text has as many lines of each kind as a chip of 14 by 18 tiles.
fn expect_counts(rt: &impl Abort, text: &[u8]) {
    expect_that(
        rt,
        text.starts_with(b".device 1k 14 18 26256\n".as_slice()),
        b"counts",
    );
    expect_that(rt, count_of(text, b".logic_tile ") == 192, b"counts");
    expect_that(rt, count_of(text, b".io_tile ") == 56, b"counts");
    expect_that(rt, count_of(text, b".net ") == 26_256, b"counts");
    expect_that(rt, count_of(text, b".buffer ") == 23_052, b"counts");
    expect_groups(rt, text, &["\n112 12 17 1\n.gbufin\n"]);
}

// Fails unless the text of the smallest chip is as expected.
fn expect_smallest(rt: &impl Abort, text: &[u8]) {
    expect_beginning(rt, text, BEGINNING);
    expect_groups(rt, text, &FUNCTIONS);
    expect_groups(rt, text, &NETS);
    expect_groups(rt, text, &TRACKS);
    expect_groups(rt, text, &INPUTS);
    expect_groups(rt, text, &CONTROLS);
    expect_groups(rt, text, &PINS);
    expect_carries(rt, text);
}

// How a chip begins that was put behind a line.
const APPENDED: &[u8] = b"# old\n.device 1k 4 4 1040\n.pins sample\n";

fn a_chip_is_appended(rt: &impl Abort, alloc: Global, length: usize) {
    let mut out = Vec::from_slice(alloc, b"# old\n").expect(rt, "memory");
    sample_chip(alloc, 4, 4, &mut out).expect(rt, "memory");
    expect_that(rt, out.len() == length.saturating_add(6), b"length");
    expect_that(rt, out.starts_with(APPENDED), b"appended");
}

#[test]
fn sample_chips_have_their_lines(rt: HostRuntime) {
    let text = smallest(&rt, rt.alloc());
    expect_smallest(&rt, &text);
    a_chip_is_appended(&rt, rt.alloc(), text.len());
}

// ---- chips that are read

// How many tiles of a kind the chip has.
fn tiles_of(chip: &Chip, kind: TileKind) -> u32 {
    let mut count: u32 = 0;
    for tile in chip.tiles() {
        if tile.kind == kind {
            count = count.saturating_add(1);
        }
    }
    count
}

/// How many wires, switch rows and tiles of both kinds a sample chip has. It has two pads for each IO tile.
#[derive(Clone, Copy)]
pub struct Counts {
    wires: u32,
    rows: u32,
    logic: u32,
    io: u32,
}

const OF_14_BY_18: Counts = Counts {
    wires: 26_256,
    rows: 225_652,
    logic: 192,
    io: 56,
};

// The rows were counted in the text of another program.
const OF_49_BY_49: Counts = Counts {
    wires: 269_600,
    rows: 2_437_378,
    logic: 2_209,
    io: 188,
};

/// Fails unless the chip has so many parts.
pub fn expect_parts(rt: &impl Abort, chip: &Chip, counts: Counts) {
    expect_that(rt, chip.wires() == counts.wires, b"wires");
    expect_that(rt, chip.rows() == counts.rows, b"rows");
    expect_that(
        rt,
        tiles_of(chip, TileKind::Logic) == counts.logic,
        b"logic",
    );
    expect_that(rt, tiles_of(chip, TileKind::Io) == counts.io, b"io");
    let tiles = chip.tiles().len();
    expect_that(
        rt,
        tiles == counts.logic as usize + counts.io as usize,
        b"tiles",
    );
    let bonded = chip.package(b"sample").expect(rt, "a package");
    expect_that(rt, bonded.pads.len() == 2 * counts.io as usize, b"pads");
}

#[test]
fn counts_are_those_of_the_size(rt: HostRuntime) {
    let mut text = Vec::new(rt.alloc());
    sample_chip(rt.alloc(), 14, 18, &mut text).expect(&rt, "memory");
    expect_counts(&rt, &text);
    expect_of(&rt, rt.alloc(), &text, Asked::Parts(OF_14_BY_18));
}

#[test]
fn many_wires_are_read(rt: HostRuntime) {
    let mut text = Vec::new(rt.alloc());
    sample_chip(rt.alloc(), 49, 49, &mut text).expect(&rt, "memory");
    expect_of(&rt, rt.alloc(), &text, Asked::Parts(OF_49_BY_49));
}
