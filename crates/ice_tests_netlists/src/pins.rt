//! Pads and globals of ports, with constraints and without, on a small sample chip of twenty pads.
use crate::asked::{Asked, expect};
use crate::texts::small_chip;
use ice_base::lines_of;
use std::alloc::Global;
use std::process::Abort;

// A netlist, its constraints, and what is said.
type Case = (&'static [u8], &'static [u8], &'static [u8]);

const TABLE: &[u8] =
    b".model t\n.outputs y\n.inputs a b\n.gate SB_LUT4 I0=a I1=b O=y\n.param LUT_INIT 1000\n.end\n";

const TWENTY_ONE: &[u8] =
    b".model t\n.inputs a b c d e f g h i j k l m n o p q r s t\n.outputs y\n.names y\n1\n.end\n";

const NINE: &[u8] =
    b".model t\n.inputs a\n.outputs y\n.names a y\n1 1\n.gate SB_GB USER_SIGNAL_TO_GLOBAL_BUFFER=a GLOBAL_BUFFER_OUTPUT=0\n.gate SB_GB USER_SIGNAL_TO_GLOBAL_BUFFER=a GLOBAL_BUFFER_OUTPUT=1\n.gate SB_GB USER_SIGNAL_TO_GLOBAL_BUFFER=a GLOBAL_BUFFER_OUTPUT=2\n.gate SB_GB USER_SIGNAL_TO_GLOBAL_BUFFER=a GLOBAL_BUFFER_OUTPUT=3\n.gate SB_GB USER_SIGNAL_TO_GLOBAL_BUFFER=a GLOBAL_BUFFER_OUTPUT=4\n.gate SB_GB USER_SIGNAL_TO_GLOBAL_BUFFER=a GLOBAL_BUFFER_OUTPUT=5\n.gate SB_GB USER_SIGNAL_TO_GLOBAL_BUFFER=a GLOBAL_BUFFER_OUTPUT=6\n.gate SB_GB USER_SIGNAL_TO_GLOBAL_BUFFER=a GLOBAL_BUFFER_OUTPUT=7\n.gate SB_GB USER_SIGNAL_TO_GLOBAL_BUFFER=a GLOBAL_BUFFER_OUTPUT=8\n.end\n";

// A global for a clock, one for an enable, and one for a set or reset.
const THREE: &[u8] =
    b".model t\n.inputs c e r d\n.outputs q\n.gate SB_GB USER_SIGNAL_TO_GLOBAL_BUFFER=c GLOBAL_BUFFER_OUTPUT=cg\n.gate SB_GB USER_SIGNAL_TO_GLOBAL_BUFFER=e GLOBAL_BUFFER_OUTPUT=eg\n.gate SB_GB USER_SIGNAL_TO_GLOBAL_BUFFER=r GLOBAL_BUFFER_OUTPUT=rg\n.gate SB_DFFER C=cg E=eg R=rg D=d Q=q\n.end\n";

const ASSIGNED: [Case; 4] = [
    (TABLE, b"", b"pads 1 0 0 1 0 1 2 0 0 globals"),
    (TABLE, b"set_io b 1\n", b"pads 1 0 1 2 0 0 1 0 0 globals"),
    // A lenient line is skipped, and takes no pad.
    (
        TABLE,
        b"set_io --warn-no-port z 1\nset_io b 20\n",
        b"pads 1 0 0 1 0 1 2 4 1 globals",
    ),
    // Enables and resets choose first, and the clock takes what is left.
    (
        THREE,
        b"",
        b"pads 1 0 0 1 0 1 2 0 0 2 0 1 0 1 0 globals 2 1 0",
    ),
];

const REFUSED: [Case; 9] = [
    (TABLE, b"set_io a 21\n", b"line 1: an unknown pin"),
    (TABLE, b"set_io z 1\n", b"line 1: an unknown port"),
    (TABLE, b"set_io z 21\n", b"line 1: an unknown port"),
    (
        TABLE,
        b"set_io a 1\nset_io b 2\nset_io a 3\n",
        b"lines 1 and 3: one port",
    ),
    (
        TABLE,
        b"set_io a 1\n\nset_io b 1\n",
        b"lines 1 and 3: one pad",
    ),
    (
        TABLE,
        b"set_io a 1\nset_io a 1\n",
        b"lines 1 and 2: one port",
    ),
    // An earlier line's fault comes first.
    (
        TABLE,
        b"set_io a 21\nset_io z 1\n",
        b"line 1: an unknown pin",
    ),
    (TWENTY_ONE, b"", b"no pad left"),
    (NINE, b"", b"9 global buffers, 8 globals"),
];

// On a chip without one pad's wire for outputs.
const LACKING: [Case; 3] = [
    (TABLE, b"set_io y 1\n", b"a pad without the wires"),
    (TABLE, b"", b"pads 1 0 1 1 0 0 2 0 0 globals"),
    (TABLE, b"set_io a 1\n", b"pads 1 0 1 1 0 0 2 0 0 globals"),
];

// A text without one line.
fn without(rt: &impl Abort, alloc: Global, whole: &[u8], left_out: &[u8]) -> Vec<u8> {
    let mut text = Vec::new(alloc);
    for line in lines_of(whole) {
        if line.text != left_out {
            text.extend_from_slice(line.text).expect(rt, "memory");
            text.push(b'\n').expect(rt, "memory");
        }
    }
    text
}

// Fails unless each case comes of it, on the chip of a text.
fn expect_cases(rt: &impl Abort, alloc: Global, chip: &[u8], cases: &[Case]) {
    for (netlist, constraints, said) in cases {
        expect(rt, alloc, chip, netlist, Asked::Pins(constraints, said));
    }
}

#[test]
fn ports_get_pads_and_buffers_get_globals(rt: HostRuntime) {
    let alloc = rt.alloc();
    let whole = small_chip(&rt, alloc);
    expect_cases(&rt, alloc, &whole, &ASSIGNED);
    expect_cases(&rt, alloc, &whole, &REFUSED);
    let lacking = without(&rt, alloc, &whole, b"1 0 io_0/D_OUT_0");
    expect_cases(&rt, alloc, &lacking, &LACKING);
}
