//! The usable rows of small chips: by the bits of their groups, and by the names of a wire between two rows.
use crate::asked::{Asked, expect};
use crate::usable::{Case, expect_cases};
use ice_tests_small_chips::Sample;
use std::alloc::Global;
use std::process::Abort;
use std::thread::Threads;

const UNSOUND: [Case; 5] = [
    // A bit of two wires' groups in one tile, and the same bit in another tile.
    (
        b".buffer 0 0 1 B0[0]\n1 0\n.buffer 0 0 2 B0[0] B1[0]\n10 0\n01 3\n.buffer 1 0 3 B0[0]\n1 0\n",
        b"3 0 3",
    ),
    // A bit of a foreign function of the kind.
    (
        b"IoCtrl.LVDS B0[0]\n.buffer 0 0 1 B0[0]\n1 0\n.buffer 0 0 2 B1[0]\n1 0\n",
        b"1 0 2",
    ),
    // Two groups of a bundle share a bit: both rows that set it alone are on.
    (
        b".buffer 0 0 1 B0[0] B1[0]\n10 0\n01 2\n.routing 0 0 1 B0[0]\n1 3\n",
        b"1 2 1",
    ),
    // Values that are all 0, and those of an earlier row.
    (
        b".buffer 0 0 1 B0[0] B1[0]\n00 0\n10 2\n10 3\n11 4\n",
        b"1 2 1  3 4 1",
    ),
    // A bit that a group names twice has one value.
    (b".buffer 0 0 1 B0[0] B0[0]\n10 0\n11 2\n", b"1 2 1"),
];

const APART: [Case; 4] = [
    // A function that is read over, and one that is kept and has other bits.
    (
        b"IoCtrl.cf_bit_32 B0[0]\nPLL.PLLTYPE_0 B1[0]\n.buffer 0 0 1 B0[0]\n1 0\n",
        b"0 0 1",
    ),
    // A foreign function has a bit of one group of a bundle: the other group is not used either.
    (
        b"PLL.PLLTYPE_0 B1[0]\n.buffer 0 0 1 B0[0]\n1 0\n.buffer 0 0 1 B1[0]\n1 2\n.buffer 1 0 1 B0[0]\n1 3\n",
        b"2 3 1",
    ),
    // Groups of one bundle with bits of their own, and a group without rows.
    (
        b".buffer 0 0 1 B0[0]\n1 0\n.buffer 0 0 1 B1[0] B2[0]\n01 2\n11 3\n.routing 0 0 1 B3[0]\n",
        b"0 0 1  1 2 1  2 3 1",
    ),
    // A group of another wire that shares a bit and has no rows.
    (
        b".buffer 0 0 1 B0[0]\n1 0\n.buffer 0 0 2 B0[0] B1[0]\n.buffer 1 0 2 B0[0]\n1 0\n",
        b"1 0 2",
    ),
];

// ---- names

const PADS: [Case; 10] = [
    (b"0 0 span\n", b"0 0 1  1 1 2"),
    (b"0 0 ram/RDATA_0\n", b""),
    (b"0 0 ram\n", b"0 0 1  1 1 2"),
    (b"0 0 lutff_3/lout\n", b""),
    (b"0 0 lutff_8/lout\n", b"0 0 1  1 1 2"),
    (b"0 0 fabout\n", b"0 0 1"),
    (b"0 0 io_0/OUT_ENB\n", b"0 0 1"),
    (b"0 0 lutff_0/in_0\n", b"0 0 1  1 1 2"),
    (b"0 0 io_1/D_IN_0\n", b"1 1 2"),
    (b"0 0 glb_netwk_7\n", b"1 1 2"),
];

const CELL_INPUTS: [Case; 9] = [
    (b"1 0 lutff_0/in_0\n", b"0 0 1"),
    (b"1 0 lutff_0/in_1\n", b"0 0 1"),
    (b"1 0 lutff_4/in_2\n", b"0 0 1"),
    (b"1 0 lutff_7/in_3\n", b"0 0 1"),
    (b"1 0 lutff_global/clk\n", b"0 0 1"),
    (b"1 0 lutff_global/cen\n", b"0 0 1"),
    (b"1 0 lutff_global/s_r\n", b"0 0 1"),
    (b"1 0 carry_in_mux\n", b"0 0 1"),
    (b"0 0 span\n1 0 lutff_0/in_0\n2 0 span\n", b"0 0 1"),
];

const CELL_OUTPUTS: [Case; 8] = [
    (b"1 0 lutff_0/out\n", b"1 1 2"),
    (b"1 0 lutff_7/out\n", b"1 1 2"),
    (b"1 0 lutff_0/cout\n", b"1 1 2"),
    (b"1 0 lutff_7/cout\n2 0 span\n", b"1 1 2"),
    (b"1 0 glb_netwk_0\n", b"1 1 2"),
    // What cells give on at once is no route's.
    (b"1 0 lutff_0/lout\n", b""),
    (b"1 0 lutff_7/lout\n", b""),
    (b"1 0 ram/WDATA_0\n", b""),
];

// Names that are no pins, or none of such a tile.
const OPEN: [Case; 14] = [
    (b"1 0 span\n", b"0 0 1  1 1 2"),
    (b"1 0 lutff_0/in_4\n", b"0 0 1  1 1 2"),
    (b"1 0 lutff_8/in_0\n", b"0 0 1  1 1 2"),
    (b"1 0 lutff_8/out\n", b"0 0 1  1 1 2"),
    (b"1 0 lutff_0/outs\n", b"0 0 1  1 1 2"),
    (b"1 0 lutff_global/clock\n", b"0 0 1  1 1 2"),
    (b"1 0 carry_in\n", b"0 0 1  1 1 2"),
    (b"1 0 fabout\n", b"0 0 1  1 1 2"),
    (b"1 0 io_0/D_IN_0\n", b"0 0 1  1 1 2"),
    (b"1 0 glb_netwk_8\n", b"0 0 1  1 1 2"),
    (b"0 0 lutff_0/out\n", b"0 0 1  1 1 2"),
    (b"0 0 lutff_0/cout\n", b"0 0 1  1 1 2"),
    (b"0 0 carry_in_mux\n0 0 lutff_global/clk\n", b"0 0 1  1 1 2"),
    (b"0 0 io_0/D_IN_1\n", b"0 0 1  1 1 2"),
];

const MEMORIES: [Case; 7] = [
    (b"2 0 glb_netwk_0\n", b"1 1 2"),
    (b"3 0 glb_netwk_7\n", b"1 1 2"),
    (b"2 0 lutff_0/in_0\n3 0 lutff_0/out\n", b"0 0 1  1 1 2"),
    (b"2 0 fabout\n3 0 io_0/D_IN_0\n", b"0 0 1  1 1 2"),
    (b"2 0 ram/RADDR_0\n", b""),
    (b"3 0 ram/\n", b""),
    (b"3 0 lutff_0/lout\n", b""),
];

fn small_chips_have_their_usable_rows(rt: &(impl Abort + Threads + Sync), alloc: Global) {
    let rows = b"0 0 1  1 1 2  2 3 1";
    expect(rt, alloc, Sample::TwoTiles, &[], Asked::Usable(4, rows));
    let rows = b"0 0 2  1 1 2  2 0 3  3 1 3  4 3 4  5 2 5  6 4 5  7 2 6  8 4 6";
    expect(rt, alloc, Sample::TwoWays, &[], Asked::Usable(7, rows));
    let rows = b"0 0 2  1 1 2  2 2 3  3 2 4";
    expect(rt, alloc, Sample::OneWay, &[], Asked::Usable(5, rows));
}

fn rows_that_are_not_sound_are_left_out(rt: &(impl Abort + Threads + Sync), alloc: Global) {
    expect_cases(rt, alloc, Sample::Pads, 21, 6, &UNSOUND);
    expect_cases(rt, alloc, Sample::Pads, 21, 6, &APART);
}

fn no_route_leaves_an_input_or_enters_an_output(rt: &(impl Abort + Threads + Sync), alloc: Global) {
    let named: [&[Case]; 5] = [&PADS, &CELL_INPUTS, &CELL_OUTPUTS, &OPEN, &MEMORIES];
    for cases in named {
        expect_cases(rt, alloc, Sample::Named, 35, 3, cases);
    }
}

#[test]
fn usable_rows_are_found(rt: HostRuntime) {
    small_chips_have_their_usable_rows(&rt, rt.alloc());
    rows_that_are_not_sound_are_left_out(&rt, rt.alloc());
    no_route_leaves_an_input_or_enters_an_output(&rt, rt.alloc());
}
