//! The globals that pads feed directly, and which global buffers take them.
ghost use Rattle.std.specs.Prelude.{◌≡◌, [], find, IfOk};
ghost use Rattle.std.specs.List.{list_any};
ghost use Rattle.ice_pads.specs.Globals.{is_same_extra, is_shared_by, is_own, has_own_extra, is_pad, meets, can_be_direct, has_number, is_taken, is_free_for, direct_on, direct_choices};

use crate::{Buffer, Pins, global_wire, serves};
use ice_base::NoMemory;
use ice_bits_rows::Index;
use ice_chip::{Chip, Pad};
use std::alloc::Global;

// Whether this is the extra bit of a global, where the global has one.
fn is_same_extra(extra: (u32, u32, u32), other: Option<(u32, u32, u32)>) -> bool
    ensures { result ≡ is_same_extra extra other }
{
    match other {
        None => false,
        Some(other) => extra.0 == other.0 && extra.1 == other.1 && extra.2 == other.2,
    }
}

// Whether this is another global with the extra bit.
fn is_shared_by(chip: &Chip, number: u8, extra: (u32, u32, u32), other: u8) -> bool
    ensures { result ≡ is_shared_by chip.now number extra other }
{
    other != number && is_same_extra(extra, chip.padin_of(other))
}

// Whether one of these globals, other than this one, has the extra bit.
fn is_shared(chip: &Chip, number: u8, extra: (u32, u32, u32), others: &[u8]) -> bool
    ensures { result ≡ list_any (is_shared_by chip.now number extra) others.now }
{
    for other in others {
        if is_shared_by(chip, number, extra, *other) {
            return true;
        }
    }
    false
}

// Whether the global has an extra bit of its own.
fn has_own_extra(chip: &Chip, number: u8) -> bool
    ensures { result ≡ has_own_extra chip.now number }
{
    match chip.padin_of(number) {
        None => false,
        Some(extra) => !is_shared(chip, number, extra, &[0, 1, 2, 3, 4, 5, 6, 7]),
    }
}

// Whether this is the pad.
fn is_pad(pad: Pad, other: Option<Pad>) -> bool
    ensures { result ≡ is_pad pad other }
{
    match other {
        None => false,
        Some(other) => pad == other,
    }
}

// Whether the global reaches what a buffer is read as.
fn meets(index: &Index, pins: Pins, number: u8) -> bool
    ensures { result ≡ meets index.now.chip.now pins number }
{
    !(pins.enable || pins.reset) || serves(index, pins, number)
}

// Whether a buffer that takes the level of the pad can be direct on the global.
fn can_be_direct(index: &Index, pins: Pins, pad: Pad, number: u8) -> bool
    ensures { result ≡ can_be_direct index.now.chip.now pins pad number }
{
    is_pad(pad, index.chip.gbufpin_of(number))
        && has_own_extra(index.chip, number)
        && global_wire(index.chip, number).is_some()
        && meets(index, pins, number)
}

// Whether this is the number.
fn has_number(number: u8, taken: Option<u8>) -> bool
    ensures { result ≡ has_number number taken }
{
    match taken {
        None => false,
        Some(taken) => number == taken,
    }
}

// Whether one of these took the global.
fn is_taken(taken: &[Option<u8>], number: u8) -> bool
    ensures { result ≡ is_taken taken.now number }
{
    for other in taken {
        if has_number(number, *other) {
            return true;
        }
    }
    false
}

// Whether the global is not taken, and a buffer that takes the level of the pad can be direct on it.
fn is_free_for(index: &Index, taken: &[Option<u8>], pins: Pins, pad: Pad, number: u8) -> bool
    ensures { result ≡ is_free_for index.now.chip.now taken.now pins pad number }
{
    !is_taken(taken, number) && can_be_direct(index, pins, pad, number)
}

// The first of these globals that is not taken, and on which a buffer that takes the level of the pad can be direct.
fn first_direct(
    index: &Index,
    taken: &[Option<u8>],
    pins: Pins,
    pad: Pad,
    numbers: &[u8],
) -> Option<u8>
    ensures { result ≡ find (is_free_for index.now.chip.now taken.now pins pad) numbers.now }
{
    for number in numbers {
        if is_free_for(index, taken, pins, pad, *number) {
            return Some(*number);
        }
    }
    None
}

// The global on which a buffer is direct, where it is, behind what others took.
fn direct_on(index: &Index, taken: &[Option<u8>], buffer: Buffer) -> Option<u8>
    ensures { result ≡ direct_on index.now.chip.now taken.now buffer.pins buffer.pad }
{
    match buffer.pad {
        None => None,
        Some(pad) => first_direct(index, taken, buffer.pins, pad, &[0, 1, 2, 3, 4, 5, 6, 7]),
    }
}

/// The global on which each of these buffers is direct, where it is.
pub fn direct_choices(
    alloc: Global,
    index: &Index,
    buffers: &[Buffer],
) -> Result<Vec<Option<u8>>, NoMemory>
    ensures { IfOk result (λ taken.
        taken.items ≡ direct_choices index.now.chip.now [] buffers.now) }
{
    let mut taken = Vec::new(alloc);
    for buffer in buffers {
        let number = direct_on(index, &taken, *buffer);
        taken.push(number)?;
    }
    Ok(taken)
}
