//! Circuits of bits: which rows drive which wires, and how many points there are.
use crate::asked::{Asked, expect};
use crate::claims::expect_that;
use ice_base::{BitAt, RowNo, TileAt, WireNo, lines_of};
use ice_bits::{Bits, blank};
use ice_chip::Chip;
use ice_decode::{Circuit, Driver};
use ice_decode_circuit::decode;
use ice_tests_small_chips::{Sample, count_lines, number_at};
use std::alloc::Global;
use std::process::Abort;

// Bits at 1, on a line for each the column and the row of the tile and the row and the column of the bit; the number of points; and
// the wires that are driven, on a line for each its number and that of the row.
type Case = (Sample, &'static [u8], usize, &'static [u8]);

// Sets the bit of a line.
fn set_one(bits: &mut Bits, line: &[u8]) {
    let tile = TileAt {
        x: number_at(line, 0).min(255) as u16,
        y: number_at(line, 1).min(255) as u16,
    };
    let bit = BitAt {
        row: number_at(line, 2).min(255) as u8,
        col: number_at(line, 3).min(255) as u8,
    };
    if bits.has(tile, bit) {
        bits.set(tile, bit, true);
    }
}

// Sets the bits of these lines.
fn set_ones(bits: &mut Bits, ones: &[u8]) {
    for line in lines_of(ones) {
        set_one(bits, line.text);
    }
}

// How many wires are driven.
fn count_driven(circuit: &Circuit) -> usize {
    let mut count: usize = 0;
    for driver in circuit.drivers() {
        if let Driver::By(_) = driver {
            count = count.saturating_add(1);
        }
    }
    count
}

// Fails unless the row of a line drives its wire.
fn expect_driver(rt: &impl Abort, circuit: &Circuit, line: &[u8]) {
    let wire = number_at(line, 0);
    expect_that(rt, (wire as usize) < circuit.drivers().len(), line);
    let found = circuit.driver(WireNo(wire));
    expect_that(rt, found == Some(RowNo(number_at(line, 1))), line);
}

// Fails unless a circuit has so many points and these rows drive these wires, and no other wire is driven.
fn expect_driven(rt: &impl Abort, circuit: &Circuit, points: usize, driven: &[u8]) {
    expect_that(rt, circuit.order().len() == points, b"points");
    expect_that(rt, count_driven(circuit) == count_lines(driven), b"driven");
    for line in lines_of(driven) {
        expect_driver(rt, circuit, line.text);
    }
}

/// Fails unless bits of a chip have this number of points and these driven wires.
pub fn expect_circuit(rt: &impl Abort, alloc: Global, chip: &Chip, case: (&[u8], usize, &[u8])) {
    let mut bits = blank(alloc, chip).expect(rt, "memory");
    set_ones(&mut bits, case.0);
    let circuit = decode(alloc, chip, &bits).expect(rt, "a circuit");
    drop(bits);
    expect_driven(rt, &circuit, case.1, case.2);
    drop(circuit);
}

// Fails unless each case has its circuit.
fn expect_all(rt: &impl Abort, alloc: Global, cases: &[Case]) {
    for case in cases {
        let (sample, ones, points, driven) = *case;
        expect(rt, alloc, sample, &[], Asked::Driven(ones, points, driven));
    }
}

// No bits; a pad that is read, and a pad that is driven; both ways, to the two pads.
const PADS: [Case; 3] = [
    (Sample::TwoTiles, b"", 4, b""),
    (
        Sample::TwoTiles,
        b"0 0 0 17\n0 0 0 0\n1 0 0 0\n1 0 0 17\n1 0 3 17\n1 0 4 17",
        4,
        b"1 0\n2 1",
    ),
    (
        Sample::TwoWays,
        b"0 0 0 17\n0 0 6 17\n0 0 0 0\n0 0 3 0\n1 0 0 0\n1 0 1 0\n1 0 4 0",
        7,
        b"2 0\n3 3\n4 4\n5 5\n6 8",
    ),
];

// The values of the first row and of the third, and those of no row; a loop through a flip-flop; and carries of which one is off.
const CELLS: [Case; 6] = [
    (Sample::Logic, b"1 0 10 3", 23, b"13 4"),
    (Sample::Logic, b"1 0 10 3\n1 0 10 4", 23, b"13 6"),
    (Sample::Logic, b"1 0 10 4", 23, b""),
    (Sample::Logic, b"1 0 10 0\n1 0 0 9", 23, b"0 0"),
    (Sample::Logic, b"1 0 10 2\n1 0 0 8", 23, b"1 2"),
    (Sample::Logic, b"1 0 10 2\n1 0 1 8", 23, b"1 2"),
];

#[test]
fn circuits_are_driven_by_the_rows_that_are_on(rt: HostRuntime) {
    expect_all(&rt, rt.alloc(), &PADS);
    expect_all(&rt, rt.alloc(), &CELLS);
}
