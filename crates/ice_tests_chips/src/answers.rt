//! Chip texts whole and in pieces. The numbers and the faults that are expected were worked out by hand.
use crate::claims::expect_that;
use ice_chip::{Chip, ChipFault};
use ice_chip_read::read_chip;
use ice_chip_read_pieces::ChipReader;
use ice_tests_small_chips::{Change, Sample, text_with};
use rand_core::SeedableRng;
use rand_core::utils::NextWord;
use rand_pcg::Pcg32;
use std::alloc::Global;
use std::process::Abort;

/// What is compared of a chip: the numbers of its wires, switch rows, tiles and functions.
pub type Counts = (u32, u32, usize, usize);

// The counts of a chip.
fn counts_of(chip: &Chip) -> Counts {
    (
        chip.wires(),
        chip.rows(),
        chip.tiles().len(),
        chip.functions().len(),
    )
}

/// What is compared of an answer.
pub fn counted(answer: Result<Chip, ChipFault>) -> Result<Counts, ChipFault> {
    match answer {
        Ok(chip) => {
            let counts = counts_of(&chip);
            drop(chip);
            Ok(counts)
        }
        Err(fault) => Err(fault),
    }
}

// The answer of a text in pieces of this size, at least 1. A reader that ran out of memory says so at its end.
fn by_pieces(alloc: Global, text: &[u8], size: usize) -> Result<Counts, ChipFault> {
    let Ok(mut reader) = ChipReader::new(alloc) else {
        return Err(ChipFault::NoMemory);
    };
    for piece in text.chunks(size.max(1)) {
        if reader.feed(piece).is_err() {
            break;
        }
    }
    counted(reader.finish())
}

// At most how many bytes a piece has that is cut at random.
const MOST: u32 = 60;

// The answer of a text in pieces that are cut at random, by this seed, and in empty pieces behind them. A reader that ran out of memory
// says so at its end.
fn by_random_pieces(alloc: Global, text: &[u8], seed: u64) -> Result<Counts, ChipFault> {
    let Ok(mut reader) = ChipReader::new(alloc) else {
        return Err(ChipFault::NoMemory);
    };
    let mut words = Pcg32::seed_from_u64(seed);
    let mut left = text;
    for _ in 0..text.len() {
        let size = left.len().min(1 + (words.next_word() % MOST) as usize);
        if reader.feed(&left[..size]).is_err() {
            break;
        }
        left = &left[size..];
    }
    counted(reader.finish())
}

// Fails unless an answer is as expected.
fn expect_same(
    rt: &impl Abort,
    found: Result<Counts, ChipFault>,
    expected: Result<Counts, ChipFault>,
) {
    expect_that(rt, found == expected, b"answer");
}

// Fails unless this is the answer of a text, whole and in pieces.
fn expect_answer(rt: &impl Abort, alloc: Global, text: &[u8], expected: Result<Counts, ChipFault>) {
    expect_same(rt, counted(read_chip(alloc, text)), expected);
    for size in [1, 7, 4096] {
        expect_same(rt, by_pieces(alloc, text, size), expected);
    }
    for seed in 0..20 {
        expect_same(rt, by_random_pieces(alloc, text, seed), expected);
    }
}

// Whole chips without a fault.
const CHIPS: [(Sample, Counts); 3] = [
    (Sample::TwoTiles, (4, 3, 2, 16)),
    (Sample::TwoWays, (7, 9, 2, 16)),
    (Sample::OneWay, (5, 4, 2, 16)),
];

// Fails unless each chip is read.
fn expect_chips(rt: &impl Abort, alloc: Global, chips: &[(Sample, Counts)]) {
    for (sample, counts) in chips {
        let text = text_with(alloc, *sample, &[]).expect(rt, "memory");
        expect_answer(rt, alloc, &text, Ok(*counts));
    }
}

// A line of the text of two tiles, what stands in its place, and the fault then.
const FAULTS: [(Change, ChipFault); 9] = [
    ((1, b"# none\n"), ChipFault::NoDevice { line: 2 }),
    ((1, b".device 1k 2 1 x\n"), ChipFault::BadNumber { line: 1 }),
    ((1, b".device 5k 2 1 4\n"), ChipFault::BadName { line: 1 }),
    (
        (8, b"\n\n.io_tile 2 0\n"),
        ChipFault::OutOfRange { line: 10 },
    ),
    (
        (9, b".io_tile 0 0\n"),
        ChipFault::Twice { line: 9, other: 8 },
    ),
    (
        (11, b"IOB_0.PINTYPE_0 B16[17]\n"),
        ChipFault::BadBit { line: 11 },
    ),
    ((37, b"11 0\n"), ChipFault::BadValues { line: 37 }),
    (
        (12, b"IOB_0.PINTYPE_1 B0[17]\n"),
        ChipFault::SharedFunction {
            line: 12,
            other: 11,
        },
    ),
    ((11, b""), ChipFault::LacksFunction { line: 0 }),
];

// Fails unless each change makes its fault.
fn expect_faults(rt: &impl Abort, alloc: Global, cases: &[(Change, ChipFault)]) {
    for (change, fault) in cases {
        let text = text_with(alloc, Sample::TwoTiles, &[*change]).expect(rt, "memory");
        expect_answer(rt, alloc, &text, Err(*fault));
    }
}

#[test]
fn pieces_give_the_answer_of_the_whole_text(rt: HostRuntime) {
    let alloc = rt.alloc();
    expect_chips(&rt, alloc, &CHIPS);
    expect_answer(&rt, alloc, b"", Err(ChipFault::NoDevice { line: 0 }));
    expect_faults(&rt, alloc, &FAULTS);
}
