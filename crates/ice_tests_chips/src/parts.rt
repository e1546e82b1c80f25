//! Faults of chip texts with both their lines, and of databases whose rows stand in another order than their lines.
use crate::asked::{Asked, expect};
use crate::claims::expect_that;
use ice_base::{BitAt, NoMemory, TileAt, lines_of, name_of};
use ice_chip::{BitList, ChipFault, ChipParts, Function, TileKind, TileLine};
use ice_chip_build::shared_function;
use ice_tests_small_chips::{Change, Sample, number_at, word_at};
use std::alloc::Global;
use std::process::Abort;

// The fault of two lines that these words tell.
fn fault_of(words: &[u8]) -> ChipFault {
    let line = number_at(words, 1);
    let other = number_at(words, 2);
    if word_at(words, 0) == b"twice".as_slice() {
        return ChipFault::Twice { line, other };
    }
    if word_at(words, 0) == b"sharedpin".as_slice() {
        return ChipFault::SharedPin { line, other };
    }
    ChipFault::SharedFunction { line, other }
}

/// Fails unless a fault is the one that these words tell.
pub fn expect_fault(rt: &impl Abort, fault: &ChipFault, words: &[u8]) {
    expect_that(rt, *fault == fault_of(words), words);
}

// A change of the chip with a tile of each kind, and the fault with both lines.
const FAULTS: [(Change, &[u8]); 9] = [
    ((34, b".net 1\n.net 2\n.net 1\n"), b"twice 36 34"),
    ((34, b"\n\n\n.io_tile 0 0\n"), b"twice 37 2"),
    (
        (
            34,
            b".ramt_tile_bits 42 16\nColBufCtrl.glb_netwk_7 B0[0]\nColBufCtrl.glb_netwk_7 B0[1]\n",
        ),
        b"twice 36 35",
    ),
    ((34, b".net 1\n0 0 a\n.net 2\n0 0 a\n"), b"twice 37 35"),
    ((34, b".buffer 1 0 1 B3[5]\n"), b"sharedfunction 34 27"),
    (
        (34, b".buffer 1 0 1 B15[0] B8[1]\n"),
        b"sharedfunction 34 33",
    ),
    ((32, b"NegClk B7[19]\n"), b"sharedfunction 32 31"),
    (
        (34, b".net 1\n1 0 lutff_0/in_0\n1 0 lutff_0/in_1\n"),
        b"sharedpin 36 35",
    ),
    (
        (
            34,
            b".net 2\n0 0 io_0/D_IN_0\n0 0 io_1/D_IN_0\n.net 1\n1 0 lutff_0/out\n1 0 lutff_1/out\n",
        ),
        b"sharedpin 36 35",
    ),
];

// Fails unless each change has its fault.
fn expect_faults(rt: &impl Abort, alloc: Global, cases: &[(Change, &'static [u8])]) {
    for (change, words) in cases {
        let asked = Asked::Fault(*words);
        expect(rt, alloc, Sample::FourKinds, &[*change], asked);
    }
}

// ---- databases by hand

// The kinds of the tiles of a database, from the left.
const KINDS: [TileKind; 4] = [
    TileKind::Io,
    TileKind::Logic,
    TileKind::RamBottom,
    TileKind::RamTop,
];

// Adds tiles of these kinds to the lowest row. The line of each is 2.
fn add_tiles(parts: &mut ChipParts, kinds: &[TileKind]) -> Result<(), NoMemory> {
    let mut x: u16 = 0;
    for kind in kinds {
        let line = TileLine {
            kind: *kind,
            line: 2,
        };
        parts.tiles.insert(TileAt { x, y: 0 }, line)?;
        x = x.saturating_add(1);
    }
    Ok(())
}

// A number that is one of a bit.
fn small(number: u32) -> u8 {
    number.min(255) as u8
}

// Two bits of row 3, whose columns two words name from the second on.
fn two_bits(rt: &impl Abort, alloc: Global, words: &[u8]) -> BitList {
    let mut bits = BitList::new(alloc);
    for place in 1..3 {
        let col = small(number_at(words, place));
        bits.push(BitAt { row: 3, col }).expect(rt, "memory");
    }
    bits
}

// Adds a function of two bits of row 3 of a logic tile: its name, the columns and the line.
fn add_pair(rt: &impl Abort, alloc: Global, parts: &mut ChipParts, words: &[u8]) {
    let function = Function {
        kind: TileKind::Logic,
        name: name_of(alloc, word_at(words, 0)).expect(rt, "memory"),
        bits: two_bits(rt, alloc, words),
        line: number_at(words, 3),
    };
    parts.functions.push(function).expect(rt, "memory");
}

// Adds functions that each have two bits of row 3 of a logic tile.
fn add_pairs(rt: &impl Abort, alloc: Global, parts: &mut ChipParts, functions: &[u8]) {
    for line in lines_of(functions) {
        add_pair(rt, alloc, parts, line.text);
    }
}

// Fails unless the functions of these lines, which each have two bits of row 3 of a logic tile, share a bit in these lines.
fn expect_shared(rt: &impl Abort, alloc: Global, functions: &[u8], lines: (u32, u32)) {
    let mut parts = ChipParts::new(alloc, 5, 1, 4);
    add_tiles(&mut parts, &KINDS).expect(rt, "memory");
    add_pairs(rt, alloc, &mut parts, functions);
    let shared = shared_function(alloc, &parts).expect(rt, "memory");
    drop(parts);
    expect_that(rt, shared == Some(lines), functions);
}

// Functions, and the lines that share a bit: lines and not places say what is first.
const SHARED: [(&[u8], (u32, u32)); 2] = [
    (b"NegClk 3 2 9\nLC_0 1 2 7", (9, 7)),
    (b"NegClk 3 2 9\nLC_0 1 2 7\nNegClk 5 5 8", (8, 8)),
];

#[test]
fn faults_have_the_lines_that_count(rt: HostRuntime) {
    expect_faults(&rt, rt.alloc(), &FAULTS);
    for (functions, lines) in &SHARED {
        expect_shared(&rt, rt.alloc(), functions, *lines);
    }
}
