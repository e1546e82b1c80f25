//! Texts of small chips, with changes of them.
use ice_base::{Line, lines_of};
use std::alloc::{AllocError, Global};

// The functions of pads. They stand behind each heading of them.
const PAD_FUNCTIONS: &[u8] = b"IOB_0.PINTYPE_0 B0[17]
IOB_0.PINTYPE_1 B1[17]
IOB_0.PINTYPE_2 B2[17]
IOB_0.PINTYPE_3 B3[17]
IOB_0.PINTYPE_4 B4[17]
IOB_0.PINTYPE_5 B5[17]
IOB_1.PINTYPE_0 B6[17]
IOB_1.PINTYPE_1 B7[17]
IOB_1.PINTYPE_2 B8[17]
IOB_1.PINTYPE_3 B9[17]
IOB_1.PINTYPE_4 B10[17]
IOB_1.PINTYPE_5 B11[17]
IoCtrl.IE_0 B12[17]
IoCtrl.REN_0 B13[17]
IoCtrl.IE_1 B14[17]
IoCtrl.REN_1 B15[17]
";

// The functions of logic cells. They stand behind each heading of them.
const CELL_FUNCTIONS: &[u8] =
    b"LC_0 B0[0] B0[1] B0[2] B0[3] B0[4] B0[5] B0[6] B0[7] B0[8] B0[9] B0[10] B0[11] B0[12] B0[13] B0[14] B0[15] B0[16] B0[17] B0[18] B0[19]
LC_1 B1[0] B1[1] B1[2] B1[3] B1[4] B1[5] B1[6] B1[7] B1[8] B1[9] B1[10] B1[11] B1[12] B1[13] B1[14] B1[15] B1[16] B1[17] B1[18] B1[19]
LC_2 B2[0] B2[1] B2[2] B2[3] B2[4] B2[5] B2[6] B2[7] B2[8] B2[9] B2[10] B2[11] B2[12] B2[13] B2[14] B2[15] B2[16] B2[17] B2[18] B2[19]
LC_3 B3[0] B3[1] B3[2] B3[3] B3[4] B3[5] B3[6] B3[7] B3[8] B3[9] B3[10] B3[11] B3[12] B3[13] B3[14] B3[15] B3[16] B3[17] B3[18] B3[19]
LC_4 B4[0] B4[1] B4[2] B4[3] B4[4] B4[5] B4[6] B4[7] B4[8] B4[9] B4[10] B4[11] B4[12] B4[13] B4[14] B4[15] B4[16] B4[17] B4[18] B4[19]
LC_5 B5[0] B5[1] B5[2] B5[3] B5[4] B5[5] B5[6] B5[7] B5[8] B5[9] B5[10] B5[11] B5[12] B5[13] B5[14] B5[15] B5[16] B5[17] B5[18] B5[19]
LC_6 B6[0] B6[1] B6[2] B6[3] B6[4] B6[5] B6[6] B6[7] B6[8] B6[9] B6[10] B6[11] B6[12] B6[13] B6[14] B6[15] B6[16] B6[17] B6[18] B6[19]
LC_7 B7[0] B7[1] B7[2] B7[3] B7[4] B7[5] B7[6] B7[7] B7[8] B7[9] B7[10] B7[11] B7[12] B7[13] B7[14] B7[15] B7[16] B7[17] B7[18] B7[19]
NegClk B8[0]
CarryInSet B8[1]
";

// Two tiles and four wires, of which `span` is in both tiles and has a group in each.
const TWO_TILES: &[u8] = b".device 1k 2 1 4
.pins tiny
1 0 0 0
2 1 0 0
.ieren
0 0 0 0 0 0
1 0 0 1 0 0
.io_tile 0 0
.io_tile 1 0
.io_tile_bits 18 16
.net 0
0 0 io_0/D_IN_0
.net 1
0 0 span
1 0 span
.net 2
1 0 io_0/D_OUT_0
.net 3
1 0 io_1/D_IN_0
.buffer 0 0 1 B0[0]
1 0
.buffer 1 0 2 B0[0] B1[0]
10 1
.buffer 1 0 1 B2[0]
1 3
";

// Two ways from tile to tile, one of them longer.
const TWO_WAYS: &[u8] = b".device 1k 2 1 7
.pins tiny
1 0 0 0
2 0 0 1
3 1 0 0
4 1 0 1
.io_tile 0 0
.io_tile 1 0
.io_tile_bits 18 16
.net 0
0 0 io_0/D_IN_0
.net 1
0 0 io_1/D_IN_0
.net 2
0 0 short
1 0 short
.net 3
0 0 long
1 0 long
.net 4
1 0 hop
.net 5
1 0 io_0/D_OUT_0
.net 6
1 0 io_1/D_OUT_0
.buffer 0 0 2 B0[0] B1[0]
10 0
01 1
.buffer 0 0 3 B2[0] B3[0]
10 0
01 1
.routing 1 0 4 B0[0]
1 3
.buffer 1 0 5 B1[0] B2[0]
10 2
01 4
.buffer 1 0 6 B3[0] B4[0]
10 2
01 4
";

// One way from tile to tile. The last line is empty.
const ONE_WAY: &[u8] = b".device 1k 2 1 5
.pins tiny
1 0 0 0
2 0 0 1
3 1 0 0
4 1 0 1
.io_tile 0 0
.io_tile 1 0
.io_tile_bits 18 16
.net 0
0 0 io_0/D_IN_0
.net 1
0 0 io_1/D_IN_0
.net 2
0 0 short
1 0 short
.net 3
1 0 io_0/D_OUT_0
.net 4
1 0 io_1/D_OUT_0
.buffer 0 0 2 B0[0] B1[0]
10 0
01 1
.buffer 1 0 3 B1[0]
1 2
.buffer 1 0 4 B3[0]
1 2

";

// Two IO tiles. Groups stand in place of line 21, which is empty.
const PADS: &[u8] = b".device 1k 2 1 6
.io_tile 0 0
.io_tile 1 0
.io_tile_bits 18 16

";

// A tile of each kind, and none at (4, 0). Cases stand in place of lines 34 and 35, which are empty.
const FOUR_KINDS: &[u8] = b".device 1k 5 1 8
.io_tile 0 0
.logic_tile 1 0
.ramb_tile 2 0
.ramt_tile 3 0
.io_tile_bits 18 16
.logic_tile_bits 54 16


";

// A package twice, and in the first a pin twice.
const REPEATED_PINS: &[u8] = b".device 1k 2 1 1
.pins tiny
1 0 0 0
1 0 0 1
2 1 0 0
.pins tiny
1 1 0 1
3 1 0 0
.io_tile 0 0
.io_tile 1 0
.io_tile_bits 18 16
";

// Rows that say one thing twice, and names and rows at the empty place (2, 0).
const REPEATED_ROWS: &[u8] = b".device 1k 3 1 2
.gbufin
2 0 3
1 0 3
.ieren
0 0 0 2 0 1
0 0 0 1 0 1
0 0 0 0 0 0
.colbuf
2 0 0 0
1 0 0 0
0 0 0 0
.io_tile 0 0
.io_tile 1 0
.io_tile_bits 18 16
ColBufCtrl.glb_netwk_0 B0[0]
ColBufCtrl.glb_netwk_1 B1[0]
ColBufCtrl.glb_netwk_2 B2[0]
ColBufCtrl.glb_netwk_3 B3[0]
ColBufCtrl.glb_netwk_4 B4[0]
ColBufCtrl.glb_netwk_5 B5[0]
ColBufCtrl.glb_netwk_6 B6[0]
ColBufCtrl.glb_netwk_7 B7[0]
.net 0
2 0 fabout
0 0 glb_netwk_1
1 0 glb_netwk_1
0 0 glb_netwk_1
.net 1
2 0 fabout
";

// A tile with the function of one column buffer alone.
const ONE_BUFFER: &[u8] = b".device 1k 1 1 1
.colbuf
0 0 0 0
.io_tile 0 0
.io_tile_bits 18 16
ColBufCtrl.glb_netwk_0 B0[0]
";

// A tile of each kind, with row 0 from wire 0 to wire 1, in the IO tile, and row 1 from wire 1 to wire 2, in the logic tile. Names
// of wire 1 stand in place of line 35, which is empty.
const NAMED: &[u8] = b".device 1k 4 1 3
.io_tile 0 0
.logic_tile 1 0
.ramb_tile 2 0
.ramt_tile 3 0
.io_tile_bits 18 16
.logic_tile_bits 54 16
.net 1

.buffer 0 0 1 B0[0]
1 0
.buffer 1 0 2 B10[0]
1 1
";

// A logic tile between two IO tiles. Rows: 0 and 1 into `lutff_0/in_0` from `lutff_0/out` and a pad, 2 into `lutff_0/in_1` from
// `lutff_1/cout`, 3 into `span` from a memory, 4 to 6 into it from two outputs, of which 5 has the values of 4.
const LOGIC: &[u8] = b".device 1k 3 1 15
.io_tile 0 0
.logic_tile 1 0
.io_tile 2 0
.io_tile_bits 18 16
PLL.PLLTYPE_0 B15[0]
IoCtrl.LVDS B15[1]
.logic_tile_bits 54 16
.net 0
1 0 lutff_0/in_0
.net 1
1 0 lutff_0/in_1
.net 2
1 0 lutff_0/in_2
.net 3
1 0 lutff_0/in_3
.net 4
1 0 lutff_0/out
.net 5
1 0 lutff_0/cout
.net 6
1 0 lutff_1/in_1
.net 7
1 0 lutff_1/in_3
.net 8
1 0 lutff_1/out
.net 9
1 0 carry_in_mux
.net 10
1 0 lutff_1/cout
.net 11
0 0 io_0/D_IN_0
.net 12
0 0 ram/RDATA_3
.net 13
0 0 span
.net 14
2 0 io_0/D_OUT_0
.buffer 1 0 0 B10[0] B10[1]
10 4
01 11
.buffer 1 0 1 B10[2]
1 10
.buffer 0 0 13 B0[0]
1 12
.buffer 1 0 13 B10[3] B10[4]
10 8
10 4
11 4
";

/// A text of a chip. Its lines are counted with those of the functions.
#[derive(Clone, Copy)]
pub enum Sample {
    /// Two tiles and four wires, of which `span` is in both tiles and has a group in each.
    TwoTiles,
    /// Two ways from tile to tile, one of them longer.
    TwoWays,
    /// One way from tile to tile. The last line is empty.
    OneWay,
    /// Two IO tiles and six wires. Lines stand in place of line 21, which is empty.
    Pads,
    /// A tile of each kind, and none at (4, 0).
    FourKinds,
    /// A package twice, and in the first a pin twice.
    RepeatedPins,
    /// Rows that say one thing twice, and names and rows at the empty place (2, 0).
    RepeatedRows,
    /// A tile with the function of one column buffer alone.
    OneBuffer,
    /// A tile of each kind, with row 0 from wire 0 to wire 1, in the IO tile, and row 1 from wire 1 to wire 2, in the logic tile. Names
    /// of wire 1 stand in place of line 35, which is empty.
    Named,
    /// A logic tile between two IO tiles.
    Logic,
}

// The text of a chip, without the functions that stand in every chip.
fn text_of(sample: Sample) -> &'static [u8] {
    match sample {
        Sample::TwoTiles => TWO_TILES,
        Sample::TwoWays => TWO_WAYS,
        Sample::OneWay => ONE_WAY,
        Sample::Pads => PADS,
        Sample::FourKinds => FOUR_KINDS,
        Sample::RepeatedPins => REPEATED_PINS,
        Sample::RepeatedRows => REPEATED_ROWS,
        Sample::OneBuffer => ONE_BUFFER,
        Sample::Named => NAMED,
        Sample::Logic => LOGIC,
    }
}

/// A change of a text: in place of the line of this number stand these bytes, which have the line feed.
pub type Change = (u32, &'static [u8]);

// Writes a line, or what the first change of it puts in its place.
fn put_line(text: &mut Vec<u8>, line: Line<'_>, changes: &[Change]) -> Result<(), AllocError> {
    for (number, lines) in changes {
        if *number == line.number {
            return text.extend_from_slice(lines);
        }
    }
    text.extend_from_slice(line.text)?;
    text.push(b'\n')?;
    Ok(())
}

// What stands behind a line: the functions behind a heading of them, and else nothing.
fn functions_behind(line: &[u8]) -> &'static [u8] {
    if line == b".io_tile_bits 18 16".as_slice() {
        return PAD_FUNCTIONS;
    }
    if line == b".logic_tile_bits 54 16".as_slice() {
        return CELL_FUNCTIONS;
    }
    &[]
}

// The text of a chip with all functions.
fn whole_text(alloc: Global, sample: Sample) -> Result<Vec<u8>, AllocError> {
    let mut text = Vec::new(alloc);
    for line in lines_of(text_of(sample)) {
        put_line(&mut text, line, &[])?;
        text.extend_from_slice(functions_behind(line.text))?;
    }
    Ok(text)
}

/// A text with these changes.
pub fn text_with(alloc: Global, sample: Sample, changes: &[Change]) -> Result<Vec<u8>, AllocError> {
    let whole = whole_text(alloc, sample)?;
    let mut text = Vec::new(alloc);
    for line in lines_of(&whole) {
        put_line(&mut text, line, changes)?;
    }
    Ok(text)
}
