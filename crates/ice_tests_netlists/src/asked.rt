//! What is asked of a chip and a netlist. One chain of functions, each of which owns one thing, leads from their texts to the packed design.
use crate::claims::expect_that;
use crate::places::{Wanted, expect_first, expect_seeds};
use crate::ranks::expect_ranks;
use crate::said::said;
use ice_blif::read_blif;
use ice_carry::runs;
use ice_cells::Design;
use ice_check::{Sound, check};
use ice_chip::Chip;
use ice_chip_read::read_chip;
use ice_pack::pack;
use ice_pads::{Closing, Pads, assign};
use ice_pcf::read_pcf;
use std::alloc::Global;
use std::process::Abort;

/// What is asked.
#[derive(Clone, Copy)]
pub enum Asked {
    /// The pads and globals, or the fault, with these constraints.
    Pins(&'static [u8], &'static [u8]),
    /// The fault of the first placement, or nothing where there is one.
    First(&'static [u8]),
    /// Placements by this many seeds, at least so many of which differ from that of the first.
    Seeds(u64, u64),
    /// Placements by this many seeds, in at least so many of which the first cluster stands elsewhere than in the first placement.
    Moves(u64, u64),
    /// Ranks of the cells in the first placement: the same by the same seed and others by another, and each cell comes to the slot of
    /// one that is driven alike.
    Ranks,
}

// Fails unless this comes of a text of constraints.
fn expect_pins(
    rt: &impl Abort,
    alloc: Global,
    chip: &Chip,
    sound: &Sound,
    design: &Design,
    text: &[u8],
    wanted: &[u8],
) {
    let pcf = read_pcf(alloc, text).expect(rt, "constraints");
    let closing = Closing::open(sound.netlist());
    let answer = assign(
        alloc,
        chip,
        b"sample",
        &pcf,
        sound.netlist(),
        closing,
        design,
    );
    drop(pcf);
    let found = said(rt, alloc, &answer);
    drop(answer);
    expect_that(rt, found.as_bytes() == wanted, wanted);
}

// The pads by no constraint.
fn free_pads(rt: &impl Abort, alloc: Global, chip: &Chip, sound: &Sound, design: &Design) -> Pads {
    let pcf = read_pcf(alloc, b"").expect(rt, "constraints");
    let closing = Closing::open(sound.netlist());
    let answer = assign(
        alloc,
        chip,
        b"sample",
        &pcf,
        sound.netlist(),
        closing,
        design,
    );
    drop(pcf);
    answer.expect(rt, "pads")
}

// Fails unless this comes of placing by seeds, with pads by no constraint.
fn expect_placed(
    rt: &impl Abort,
    alloc: Global,
    chip: &Chip,
    sound: &Sound,
    design: &Design,
    asked: Wanted,
) {
    let pads = free_pads(rt, alloc, chip, sound, design);
    expect_seeds(rt, alloc, chip, design, &pads, asked);
    drop(pads);
}

// Fails unless ranks are as they are to be, with pads by no constraint.
fn expect_ranked(rt: &impl Abort, alloc: Global, chip: &Chip, sound: &Sound, design: &Design) {
    let pads = free_pads(rt, alloc, chip, sound, design);
    expect_ranks(rt, alloc, chip, design, &pads);
    drop(pads);
}

// Fails unless this comes of a design.
fn expect_design(
    rt: &impl Abort,
    alloc: Global,
    chip: &Chip,
    sound: &Sound,
    design: &Design,
    asked: Asked,
) {
    match asked {
        Asked::Pins(text, wanted) => expect_pins(rt, alloc, chip, sound, design, text, wanted),
        Asked::First(wanted) => expect_first(rt, alloc, chip, design, wanted),
        Asked::Seeds(count, least) => {
            let asked = Wanted {
                count,
                least,
                moves: false,
            };
            expect_placed(rt, alloc, chip, sound, design, asked);
        }
        Asked::Moves(count, least) => {
            let asked = Wanted {
                count,
                least,
                moves: true,
            };
            expect_placed(rt, alloc, chip, sound, design, asked);
        }
        Asked::Ranks => expect_ranked(rt, alloc, chip, sound, design),
    }
}

// Fails unless this comes of a netlist without faults.
fn expect_sound(rt: &impl Abort, alloc: Global, chip: &Chip, sound: &Sound, asked: Asked) {
    let packed = pack(alloc, sound).expect(rt, "memory");
    let design = runs(alloc, packed).expect(rt, "memory");
    expect_design(rt, alloc, chip, sound, &design, asked);
    drop(design);
}

// Fails unless this comes of the text of a netlist on a chip.
fn expect_chip(rt: &impl Abort, alloc: Global, chip: &Chip, text: &[u8], asked: Asked) {
    let netlist = read_blif(alloc, text).expect(rt, "a netlist");
    let sound = check(alloc, netlist).expect(rt, "a netlist without faults");
    expect_sound(rt, alloc, chip, &sound, asked);
    drop(sound);
}

/// Fails unless this comes of the text of a netlist on the chip of a text.
pub fn expect(rt: &impl Abort, alloc: Global, chip: &[u8], text: &[u8], asked: Asked) {
    let chip = read_chip(alloc, chip).expect(rt, "a chip");
    expect_chip(rt, alloc, &chip, text, asked);
    drop(chip);
}
