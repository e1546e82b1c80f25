//! First placements of runs of carries.
use crate::asked::{Asked, expect};
use crate::texts::{large_chip, small_chip};
use std::alloc::Global;
use std::process::Abort;

// Adds one carry of a run, which takes the carry of the cell before it.
fn put_carry(rt: &impl Abort, alloc: Global, text: &mut Vec<u8>, run: u32, cell: u32) {
    let line = match cell.checked_sub(1) {
        Some(before) => {
            format!(in alloc; ".gate SB_CARRY I0=a I1=a CI=r{run}c{before} CO=r{run}c{cell}\n")
        }
        None => format!(in alloc; ".gate SB_CARRY I0=a I1=a CO=r{run}c{cell}\n"),
    };
    let line = line.expect(rt, "memory");
    text.extend_from_slice(line.as_bytes()).expect(rt, "memory");
}

// Adds a run of so many carries.
fn put_run(rt: &impl Abort, alloc: Global, text: &mut Vec<u8>, run: u32, cells: u32) {
    for cell in 0..cells {
        put_carry(rt, alloc, text, run, cell);
    }
}

// Adds runs of so many carries each.
fn put_runs(rt: &impl Abort, alloc: Global, text: &mut Vec<u8>, runs: &[u32]) {
    let mut number = 0u32;
    for cells in runs {
        put_run(rt, alloc, text, number, *cells);
        number = number.saturating_add(1);
    }
}

const BEGINNING: &[u8] = b".model runs\n.inputs a\n.outputs y\n.names a y\n1 1\n";

// The same behind twenty other inputs, which take the first pads.
const FAR: &[u8] =
    b".model runs\n.inputs b c d e f g h i j k l m n o p q r s t u a\n.outputs y\n.names a y\n1 1\n";

// The text of a netlist with runs of so many carries each.
fn runs_of(rt: &impl Abort, alloc: Global, beginning: &[u8], runs: &[u32]) -> Vec<u8> {
    let mut text = Vec::from_slice(alloc, beginning).expect(rt, "memory");
    put_runs(rt, alloc, &mut text, runs);
    text.extend_from_slice(b".end\n").expect(rt, "memory");
    text
}

// Runs of so many carries each, and the fault of their first placement, or nothing.
type Case = (&'static [u32], &'static [u8]);

// On two stretches of three sites.
const SMALL: [Case; 5] = [
    (&[24, 24], b""),
    (&[9, 9, 8, 8], b""),
    (&[9, 9, 9], b"no room for run 2 of 9 cells"),
    (&[24, 24, 1], b"7 clusters, 6 sites"),
    (&[24, 25, 26], b"a run of 25 cells, where 24 fit"),
];

// On twelve stretches of sixteen sites.
const LARGE: [Case; 2] = [
    (&[128], b""),
    (&[129], b"a run of 129 cells, where 128 fit"),
];

// Fails unless each case comes of placing on the chip of a text.
fn expect_cases(rt: &impl Abort, alloc: Global, chip: &[u8], cases: &[Case]) {
    for (runs, wanted) in cases {
        let text = runs_of(rt, alloc, BEGINNING, runs);
        expect(rt, alloc, chip, &text, Asked::First(*wanted));
    }
}

#[test]
fn runs_are_fitted(rt: HostRuntime) {
    expect_cases(&rt, rt.alloc(), &small_chip(&rt, rt.alloc()), &SMALL);
    expect_cases(&rt, rt.alloc(), &large_chip(&rt, rt.alloc()), &LARGE);
}

// The first placement has the run at the left, and its input comes in further to the right.
#[test]
fn runs_of_several_chunks_move(rt: HostRuntime) {
    let chip = large_chip(&rt, rt.alloc());
    let text = runs_of(&rt, rt.alloc(), FAR, &[20]);
    expect(&rt, rt.alloc(), &chip, &text, Asked::Moves(4, 4));
}
