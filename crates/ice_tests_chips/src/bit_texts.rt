//! Texts of bits that are read and written again, on a chip with a tile of each kind.
use crate::asked::{Asked, expect};
use crate::claims::expect_that;
use ice_asc::{read_asc, write_asc};
use ice_base::{BitAt, RowNo, TileAt, lines_of};
use ice_bits::{Bits, blank};
use ice_chip::{Chip, Function, TileKind};
use ice_tests_small_chips::{Sample, count_words, number_at};
use std::alloc::{AllocError, Global};
use std::process::Abort;

// What a text of bits says: on a line for each tile with bits at 1 its column, and the row and the column of each bit; and the lines of
// its extra bits.
type Case = (&'static [u8], &'static [u8]);

// The tiles of the chip in their order.
const HEADINGS: &[u8] = b".io_tile 0 0
.logic_tile 1 0
.ramb_tile 2 0
.ramt_tile 3 0
";

// How many columns of bits the tile in a column of the chip has.
fn columns_of(x: u16) -> u8 {
    match x {
        0 => 18,
        1 => 54,
        _ => 42,
    }
}

// Whether a line is of the tile in this column and has this bit.
fn is_named(line: &[u8], x: u16, bit: BitAt) -> bool {
    if number_at(line, 0) != u32::from(x) {
        return false;
    }
    for pair in 0..count_words(line) / 2 {
        let place = pair.saturating_mul(2).saturating_add(1);
        let row = number_at(line, place);
        let col = number_at(line, place.saturating_add(1));
        if row == u32::from(bit.row) && col == u32::from(bit.col) {
            return true;
        }
    }
    false
}

// Whether these lines have this bit of the tile in a column.
fn is_one(ones: &[u8], x: u16, bit: BitAt) -> bool {
    for line in lines_of(ones) {
        if is_named(line.text, x, bit) {
            return true;
        }
    }
    false
}

// The digit of a bit.
fn digit_of(ones: &[u8], x: u16, bit: BitAt) -> u8 {
    if is_one(ones, x, bit) { b'1' } else { b'0' }
}

// Adds a row of a tile.
fn add_row(text: &mut Vec<u8>, x: u16, row: u8, ones: &[u8]) -> Result<(), AllocError> {
    for col in 0..columns_of(x) {
        text.push(digit_of(ones, x, BitAt { row, col }))?;
    }
    text.push(b'\n')?;
    Ok(())
}

// Adds the rows of a tile.
fn add_rows(text: &mut Vec<u8>, x: u16, ones: &[u8]) -> Result<(), AllocError> {
    for row in 0..16 {
        add_row(text, x, row, ones)?;
    }
    Ok(())
}

// Adds a tile.
fn add_tile(rt: &impl Abort, text: &mut Vec<u8>, heading: &[u8], ones: &[u8]) {
    text.extend_from_slice(heading).expect(rt, "memory");
    text.push(b'\n').expect(rt, "memory");
    let x = number_at(heading, 1).min(3) as u16;
    add_rows(text, x, ones).expect(rt, "memory");
}

// Adds the tiles of the chip.
fn add_tiles(rt: &impl Abort, text: &mut Vec<u8>, ones: &[u8]) {
    for line in lines_of(HEADINGS) {
        add_tile(rt, text, line.text, ones);
    }
}

const BEGINNING: &[u8] = b".comment\nplaced and routed\n.device 1k\n";

// The text of a case as it is written.
fn text_of(rt: &impl Abort, alloc: Global, case: Case) -> Vec<u8> {
    let mut text = Vec::from_slice(alloc, BEGINNING).expect(rt, "memory");
    add_tiles(rt, &mut text, case.0);
    text.extend_from_slice(case.1).expect(rt, "memory");
    text
}

// Fails unless of the tile in this column exactly these bits are 1.
fn expect_tile(rt: &impl Abort, bits: &Bits, x: u16, ones: &[u8]) {
    let tile = TileAt { x, y: 0 };
    for row in 0..16 {
        for col in 0..columns_of(x) {
            let bit = BitAt { row, col };
            expect_that(rt, bits.get(tile, bit) == is_one(ones, x, bit), b"tile");
        }
    }
}

// Fails unless these are the extra bits.
fn expect_extras(rt: &impl Abort, bits: &Bits, lines: &[u8]) {
    let mut extras = bits.extras().iter();
    for line in lines_of(lines) {
        let wanted = (
            number_at(line.text, 1),
            number_at(line.text, 2),
            number_at(line.text, 3),
        );
        expect_that(rt, extras.next().copied() == Some(wanted), b"extras");
    }
    expect_that(rt, extras.next().is_none(), b"extras");
}

// Fails unless these are the bits of a case, and this text is written for them.
fn expect_bits(
    rt: &impl Abort,
    alloc: Global,
    chip: &Chip,
    bits: &Bits,
    case: Case,
    written: &[u8],
) {
    for x in 0..4 {
        expect_tile(rt, bits, x, case.0);
    }
    expect_extras(rt, bits, case.1);
    let mut text = Vec::new(alloc);
    write_asc(bits, chip, &mut text).expect(rt, "memory");
    expect_that(rt, text.as_slice() == written, b"written");
}

// Fails unless a text says the bits of a case, for which this text is written.
fn expect_text(
    rt: &impl Abort,
    alloc: Global,
    chip: &Chip,
    text: &[u8],
    case: Case,
    written: &[u8],
) {
    let bits = read_asc(alloc, text, chip).expect(rt, "bits");
    expect_bits(rt, alloc, chip, &bits, case, written);
    drop(bits);
}

// Fails unless the text of a case is read and written again.
fn expect_case(rt: &impl Abort, alloc: Global, chip: &Chip, case: Case) {
    let text = text_of(rt, alloc, case);
    expect_text(rt, alloc, chip, &text, case, &text);
}

// Fails unless the text of each case is read and written again.
fn expect_cases(rt: &impl Abort, alloc: Global, chip: &Chip, cases: &[Case]) {
    for case in cases {
        expect_case(rt, alloc, chip, *case);
    }
}

// No bits; those at the corners of each tile; bits of several tiles; and extra bits.
const CASES: [Case; 5] = [
    (b"", b""),
    (
        b"0 0 0 0 17 15 0 15 17\n1 0 0 0 53 15 0 15 53\n2 0 0 0 41 15 0 15 41\n3 0 0 0 41 15 0 15 41",
        b".extra_bit 1 2 3\n",
    ),
    (
        b"0 1 0 1 2\n1 4 3 4 52 4 53\n2 9 0 9 41\n3 15 4 15 41",
        b".extra_bit 1 2 3\n",
    ),
    (
        b"3 0 41",
        b".extra_bit 3 2 1\n.extra_bit 0 0 0\n.extra_bit 3 2 1\n",
    ),
    (b"2 15 0", b".extra_bit 4294967295 7 4294967294\n"),
];

// Extra bits before the device and behind a tile, comments, blanks, and tiles that are not named.
const OTHER: &[u8] = b".extra_bit 9 8 7
\t.device 1k\r

.io_tile 00 0000000000
100000000000000000
000000000000000000
 000000000000000000

000000000000000000
000000000000000000
000000000000000000
000000000000000000
000000000000000000
000000000000000000
000000000000000000
000000000000000000
000000000000000000
000000000000000000
000000000000000000
000000000000000000
000000000000000001
.sym 0 lost
.extra_bit 06 5 4";

// The bits of the other text.
const OTHER_CASE: Case = (b"0 0 0 15 17", b".extra_bit 9 8 7\n.extra_bit 6 5 4\n");

/// Fails unless the texts of all cases are read and written again, and the other text says its bits.
pub fn expect_texts(rt: &impl Abort, alloc: Global, chip: &Chip) {
    expect_cases(rt, alloc, chip, &CASES);
    let written = text_of(rt, alloc, OTHER_CASE);
    expect_text(rt, alloc, chip, OTHER, OTHER_CASE, &written);
}

// ---- functions

// Whether the bit of a function can be set in a tile: it is 0 before, and 1 once it was set.
fn is_settable(bits: &mut Bits, tile: TileAt, function: &Function, number: usize) -> bool {
    let before = bits.get_function(tile, function, number);
    bits.set_function(tile, function, number, true);
    !before && bits.get_function(tile, function, number)
}

// A number of a bit of the first logic cell, a column, and whether the bit stands in the tile there: in the tile of logic, and not in
// those of other kinds, where no tile is or past the last bit.
const PLACES: [(usize, u16, bool); 7] = [
    (0, 1, true),
    (19, 1, true),
    (20, 1, false),
    (0, 0, false),
    (0, 2, false),
    (0, 3, false),
    (0, 4, false),
];

// Fails where a bit of the first logic cell can be set at a place where it doesn't stand, or can't be where it does.
fn expect_places(rt: &impl Abort, chip: &Chip, bits: &mut Bits, places: &[(usize, u16, bool)]) {
    let cell = chip.function(TileKind::Logic, b"LC_0").expect(rt, "a cell");
    for place in places {
        let (number, x, stands) = *place;
        let tile = TileAt { x, y: 0 };
        let settable = is_settable(bits, tile, cell, number);
        expect_that(rt, settable == stands, b"places");
    }
}

/// Fails unless the bits of the first logic cell stand in tiles of its kind alone.
pub fn expect_function(rt: &impl Abort, alloc: Global, chip: &Chip) {
    let mut bits = blank(alloc, chip).expect(rt, "memory");
    expect_places(rt, chip, &mut bits, &PLACES);
    drop(bits);
}

// ---- rows

// Turns each row of a chip on, one after another.
fn turn_on(chip: &Chip, bits: &mut Bits) {
    for number in 0..chip.rows() {
        bits.set_row(chip, RowNo(number));
    }
}

// The column of a tile of the chip of two tiles, a row of its first column of bits, and the bit there once each row is on.
const ON: [(u16, u8, bool); 5] = [
    (0, 0, true),
    (0, 1, false),
    (1, 0, true),
    (1, 1, false),
    (1, 2, true),
];

// Fails unless the bits of the chip of two tiles are those of its rows.
fn expect_on(rt: &impl Abort, bits: &Bits, places: &[(u16, u8, bool)]) {
    for (x, row, wanted) in places {
        let tile = TileAt { x: *x, y: 0 };
        let found = bits.get(tile, BitAt { row: *row, col: 0 });
        expect_that(rt, found == *wanted, b"on");
    }
    let right = TileAt { x: 1, y: 0 };
    expect_that(rt, bits.kind(right) == Some(TileKind::Io), b"kind");
    expect_that(rt, bits.has(right, BitAt { row: 15, col: 17 }), b"last");
    expect_that(rt, !bits.has(right, BitAt { row: 15, col: 18 }), b"none");
}

/// Fails unless rows are turned on in bits that are copied.
pub fn expect_turned_on(rt: &impl Abort, alloc: Global, chip: &Chip) {
    let old = blank(alloc, chip).expect(rt, "memory");
    let mut bits = old.copy(alloc).expect(rt, "memory");
    drop(old);
    turn_on(chip, &mut bits);
    expect_on(rt, &bits, &ON);
    drop(bits);
}

#[test]
fn bits_are_read_set_and_written(rt: HostRuntime) {
    let alloc = rt.alloc();
    expect(&rt, alloc, Sample::FourKinds, &[], Asked::Texts);
    expect(&rt, alloc, Sample::FourKinds, &[], Asked::Settable);
    expect(&rt, alloc, Sample::TwoTiles, &[], Asked::TurnedOn);
}
