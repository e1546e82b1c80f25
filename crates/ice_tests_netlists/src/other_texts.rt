//! Pin constraints and levels that are read.
use crate::claims::expect_that;
use ice_base::words_of;
use ice_pcf::{Constraint, read_pcf};
use ice_sim_levels::{Levels, read_levels};
use std::alloc::Global;
use std::process::Abort;

// A constraint as it is expected: line, name, pin, lenient, pull-up.
type Expected<'a> = (u32, &'a [u8], &'a [u8], bool, Option<bool>);

// Fails unless the constraint is the expected one.
fn expect_constraint(rt: &impl Abort, found: &Constraint, expected: &Expected<'_>) {
    expect_that(rt, found.line == expected.0, b"line");
    expect_that(rt, found.name.as_bytes() == expected.1, b"name");
    expect_that(rt, found.pin.as_bytes() == expected.2, b"pin");
    expect_that(rt, found.lenient == expected.3, b"lenient");
    expect_that(rt, found.pullup == expected.4, b"pullup");
}

// Fails unless these constraints are the expected ones, in this order.
fn expect_constraints(rt: &impl Abort, found: &[Constraint], expected: &[Expected<'_>]) {
    expect_that(rt, found.len() == expected.len(), b"constraints");
    let mut place: usize = 0;
    for wanted in expected {
        let constraint = found.get(place).expect(rt, "a constraint more");
        expect_constraint(rt, constraint, wanted);
        place = place.saturating_add(1);
    }
}

// Fails unless a text has these constraints, in this order.
fn expect_text(rt: &impl Abort, alloc: Global, text: &[u8], expected: &[Expected<'_>]) {
    let pcf = read_pcf(alloc, text).expect(rt, "constraints");
    expect_constraints(rt, pcf.constraints(), expected);
    drop(pcf);
}

// Texts with their constraints.
const TEXTS: [(&[u8], &[Expected<'static>]); 5] = [
    (
        b"set_frequency clk 12\nset_io --warn-no-port spare 9\nset_io -pullup yes clk 1\n",
        &[
            (2, b"spare", b"9", true, None),
            (3, b"clk", b"1", false, Some(true)),
        ],
    ),
    (
        b"set_io -nowarn -pullup yes -nowarn -pullup no a 1\nset_io -pullup no -pullup yes b 2\nset_io c 3",
        &[
            (1, b"a", b"1", true, Some(false)),
            (2, b"b", b"2", false, Some(true)),
            (3, b"c", b"3", false, None),
        ],
    ),
    (
        b"set_io a -x\nset_io b -pullup\nset_io -pullup no set_io --warn-no-port\nset_io yes no",
        &[
            (1, b"a", b"-x", false, None),
            (2, b"b", b"-pullup", false, None),
            (3, b"set_io", b"--warn-no-port", false, Some(false)),
            (4, b"yes", b"no", false, None),
        ],
    ),
    (
        b"# pins\r\n\r\n\tset_io  a\t1 # b 2\r\n set_frequency\n#set_io\nset_frequency a -x b\nset_io b#c 2",
        &[(3, b"a", b"1", false, None), (7, b"b#c", b"2", false, None)],
    ),
    (b"", &[]),
];

fn constraints_are_read_in_their_order(
    rt: &impl Abort,
    alloc: Global,
    texts: &[(&[u8], &[Expected<'_>])],
) {
    for (text, expected) in texts {
        expect_text(rt, alloc, text, expected);
    }
}

// Fails unless a step has the levels of a word.
fn expect_step(rt: &impl Abort, step: &[bool], word: &[u8]) {
    expect_that(rt, step.len() == word.len(), word);
    let mut place: usize = 0;
    for digit in word {
        let level = *digit == b'1';
        expect_that(rt, step.get(place).copied() == Some(level), word);
        place = place.saturating_add(1);
    }
}

// Fails unless these are the steps.
fn expect_steps(rt: &impl Abort, levels: &Levels, expected: &[u8]) {
    let mut steps = levels.steps();
    let mut count: usize = 0;
    for word in words_of(expected) {
        let step = steps.next().expect(rt, "a step more");
        expect_step(rt, step, word);
        count = count.saturating_add(1);
    }
    expect_that(rt, steps.next().is_none(), b"steps");
    expect_that(rt, levels.count() == count, b"steps");
}

// Fails unless a text has these steps of so many ports.
fn expect_read(rt: &impl Abort, alloc: Global, text: &[u8], ports: usize, expected: &[u8]) {
    let levels = read_levels(alloc, text, ports).expect(rt, "levels");
    expect_steps(rt, &levels, expected);
    drop(levels);
}

// Texts with the number of their ports and their steps. A step is a line of one word.
const LEVELS: [(&[u8], usize, &[u8]); 5] = [
    (b"", 2, b""),
    (b"\n \t\r\n# 01\n", 0, b""),
    (b"01", 2, b"01"),
    (b" 1 # 0\n\n0\r\n", 1, b"1 0"),
    (b"100 #\n# 2\n011\n", 3, b"100 011"),
];

#[test]
fn constraints_and_levels_are_read(rt: HostRuntime) {
    constraints_are_read_in_their_order(&rt, rt.alloc(), &TEXTS);
    for (text, ports, expected) in &LEVELS {
        expect_read(&rt, rt.alloc(), text, *ports, expected);
    }
}
