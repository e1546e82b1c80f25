//! The globals that the global buffers of a design take.
ghost use Rattle.std.specs.Prelude.{◌≡◌, ◌≤◌, [], map, find, length, IfOk};
ghost use Rattle.ice_pads.specs.Wants.{buffers};
ghost use Rattle.ice_pads.specs.Assign.{chosen_pads};
ghost use Rattle.ice_pads.specs.Globals.{serves, picked, or_first, without, choice, other_choices, chosen_from, globals, left, fed_pins, is_there, taken_with, globals_of};
ghost use Rattle.ice_pads.specs.Answers.{Answers};

use crate::direct::direct_choices;
use crate::free_globals::all_globals;
use crate::needs::buffers;
use crate::{Buffer, Chosen, PinFault, Pins, serves};
use ice_base::NoMemory;
use ice_bits_rows::Index;
use ice_cells::Design;
use ice_chip::Chip;
use std::alloc::Global;
use std::marker::Model;

/// A global for each global buffer, and whether it is direct. Contracts see it as a record of two lists.
#[derive(Drop)]
pub struct Taken {
    /// The globals.
    pub numbers: Vec<u8>,
    /// Whether each is direct.
    pub direct: Vec<bool>,
}

impl Model for Taken {
    ghost use Rattle.ice_pads.specs.Globals.{TakenData};

    ghost Value = { TakenData };

    ghost view = { λ taken. record { numbers = taken.numbers.items; direct = taken.direct.items } };
}

// The first of these globals that serves the pins.
fn first_serving(index: &Index, pins: Pins, free: &[u8]) -> Option<u8>
    ensures { result ≡ find (serves index.now.chip.now pins) free.now }
{
    for number in free {
        if serves(index, pins, *number) {
            return Some(*number);
        }
    }
    None
}

// The first of these globals that serves the pins, and where there is none the first of all.
fn picked(index: &Index, pins: Pins, free: &[u8]) -> Option<u8>
    ensures { result ≡ picked index.now.chip.now pins free.now }
{
    match first_serving(index, pins, free) {
        Some(number) => Some(number),
        None => free.first().copied(),
    }
}

// What a global buffer takes among the first: one of these globals where it is read as an enable, or as a set or reset.
fn choice(index: &Index, pins: Pins, free: &[u8]) -> Option<u8>
    ensures { result ≡ choice index.now.chip.now pins free.now }
{
    if pins.enable || pins.reset {
        return picked(index, pins, free);
    }
    None
}

// These globals without this one.
fn without(alloc: Global, number: Option<u8>, free: &[u8]) -> Result<Vec<u8>, NoMemory>
    ensures { IfOk result (λ rest. rest.items ≡ without number free.now) }
{
    let Some(number) = number else {
        return Ok(Vec::from_slice(alloc, free)?);
    };
    let mut rest = Vec::new(alloc);
    for other in free {
        if *other != number {
            rest.push(*other)?;
        }
    }
    Ok(rest)
}

// What each global buffer takes, where the others take the free globals in order.
fn other_choices(alloc: Global, taken: &[Option<u8>], free: &[u8]) -> Result<Vec<u8>, NoMemory>
    ensures { IfOk result (λ globals. globals.items ≡ other_choices taken.now free.now) }
{
    let mut globals = Vec::new(alloc);
    let mut next = 0;
    for number in taken {
        if let Some(number) = number {
            globals.push(*number)?;
        } else if next < free.len() {
            globals.push(free[next])?;
            next += 1;
        } else {
            globals.push(0)?;
        }
    }
    Ok(globals)
}

// What each global buffer takes of these globals.
fn chosen_from(
    alloc: Global,
    index: &Index,
    pins: &[Pins],
    free: Vec<u8>,
) -> Result<Vec<u8>, NoMemory>
    ensures { IfOk result (λ globals.
        globals.items ≡ chosen_from index.now.chip.now free.items pins.now) }
{
    let mut free = free;
    let mut taken = Vec::new(alloc);
    for buffer in pins {
        let number = choice(index, *buffer, &free);
        free = without(alloc, number, &free)?;
        taken.push(number)?;
    }
    other_choices(alloc, &taken, &free)
}

// The globals of a chip that none of these took.
fn left(alloc: Global, chip: &Chip, direct: &[Option<u8>]) -> Result<Vec<u8>, NoMemory>
    ensures { IfOk result (λ free. free.items ≡ left direct.now (globals chip.now)) }
{
    let mut free = all_globals(alloc, chip)?;
    for number in direct {
        free = without(alloc, *number, &free)?;
    }
    Ok(free)
}

// As what those of the buffers are read that are not direct.
fn fed_pins(alloc: Global, direct: &[Option<u8>], buffers: &[Buffer]) -> Result<Vec<Pins>, NoMemory>
    ensures { IfOk result (λ pins. pins.items ≡ fed_pins direct.now buffers.now) }
{
    let mut pins = Vec::new(alloc);
    for k in 0..direct.len().min(buffers.len()) {
        let number = direct[k];
        match number {
            None => pins.push(buffers[k].pins)?,
            Some(_) => {}
        }
    }
    Ok(pins)
}

// Whether each of these is there.
fn are_there(alloc: Global, numbers: &[Option<u8>]) -> Result<Vec<bool>, NoMemory>
    ensures { IfOk result (λ there. there.items ≡ map is_there numbers.now) }
{
    let mut there = Vec::new(alloc);
    for number in numbers {
        there.push(number.is_some())?;
    }
    Ok(there)
}

// The globals of all buffers, of which the direct ones have these, and the others choose.
fn taken_with(
    alloc: Global,
    index: &Index,
    direct: &[Option<u8>],
    free: Vec<u8>,
    pins: &[Pins],
) -> Result<Taken, PinFault>
    requires few { length free.items ≤ 8 }
    ensures { Answers result (taken_with index.now.chip.now direct.now free.items pins.now) }
{
    let Ok(need) = u32::try_from(pins.len()) else {
        return Err(PinFault::NoMemory);
    };
    let have = free.len() as u32;
    if have < need {
        return Err(PinFault::TooManyGlobals { need, have });
    }
    let others = chosen_from(alloc, index, pins, free)?;
    let numbers = other_choices(alloc, direct, &others)?;
    let direct = are_there(alloc, direct)?;
    Ok(Taken { numbers, direct })
}

/// The global of each global buffer of a design whose ports have these pads, or that there are too few.
pub fn globals_of(
    alloc: Global,
    index: &Index,
    design: &Design,
    ports: &[Chosen],
) -> Result<Taken, PinFault>
    ensures { Answers result
        (globals_of index.now.chip.now (buffers design.now (chosen_pads ports.now))) }
{
    let buffers = buffers(alloc, design, ports)?;
    let direct = direct_choices(alloc, index, &buffers)?;
    let free = left(alloc, index.chip, &direct)?;
    let pins = fed_pins(alloc, &direct, &buffers)?;
    taken_with(alloc, index, &direct, free, &pins)
}
