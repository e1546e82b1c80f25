//! What is asked of the chip of a text. One function reads all chips, so that no other has to own one.
use crate::bit_texts::{expect_function, expect_texts, expect_turned_on};
use crate::circuits::expect_circuit;
use crate::claims::expect_that;
use crate::found::{Finding, expect_in};
use crate::parts::expect_fault;
use crate::sample_chips::{Counts, expect_parts};
use ice_chip::{Chip, ChipFault};
use ice_chip_read::read_chip;
use ice_tests_small_chips::{Change, Sample, text_with};
use std::alloc::Global;
use std::process::Abort;

/// What is asked of a chip.
#[derive(Clone, Copy)]
pub enum Asked {
    /// What is found in it.
    Found(&'static [Finding]),
    /// Bits at 1, the number of points of their circuit, and the wires that are driven.
    Driven(&'static [u8], usize, &'static [u8]),
    /// Texts of bits of a chip with a tile of each kind.
    Texts,
    /// Where the bits of a function can be set.
    Settable,
    /// What bits are 1 once each row is on.
    TurnedOn,
    /// How many parts it has.
    Parts(Counts),
    /// The words of the fault of the text, which is no chip.
    Fault(&'static [u8]),
}

// Fails unless this is answered of the bits of a chip.
fn expect_bits(rt: &impl Abort, alloc: Global, chip: &Chip, asked: Asked) {
    match asked {
        Asked::Texts => expect_texts(rt, alloc, chip),
        Asked::Settable => expect_function(rt, alloc, chip),
        Asked::TurnedOn => expect_turned_on(rt, alloc, chip),
        Asked::Driven(ones, points, driven) => {
            expect_circuit(rt, alloc, chip, (ones, points, driven));
        }
        _ => {}
    }
}

// Fails unless this is answered of a chip.
fn expect_chip(rt: &impl Abort, alloc: Global, chip: &Chip, asked: Asked) {
    match asked {
        Asked::Found(findings) => expect_in(rt, alloc, chip, findings),
        Asked::Parts(counts) => expect_parts(rt, chip, counts),
        Asked::Fault(words) => expect_that(rt, false, words),
        _ => expect_bits(rt, alloc, chip, asked),
    }
}

// Fails unless the fault of a text was asked, and this is it.
fn expect_no_chip(rt: &impl Abort, fault: &ChipFault, asked: Asked) {
    match asked {
        Asked::Fault(words) => expect_fault(rt, fault, words),
        _ => panic!(rt; "{fault}"),
    }
}

/// Fails unless this is answered of the chip of a text.
pub fn expect_of(rt: &impl Abort, alloc: Global, text: &[u8], asked: Asked) {
    match read_chip(alloc, text) {
        Ok(chip) => {
            expect_chip(rt, alloc, &chip, asked);
            drop(chip);
        }
        Err(fault) => expect_no_chip(rt, &fault, asked),
    }
}

/// Fails unless this is answered of the chip of a text with these changes.
pub fn expect(rt: &impl Abort, alloc: Global, sample: Sample, changes: &[Change], asked: Asked) {
    let text = text_with(alloc, sample, changes).expect(rt, "memory");
    expect_of(rt, alloc, &text, asked);
}
