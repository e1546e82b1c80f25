//! Globals that have the level of a pad, by extra bits, and extra bits of no global.
ghost use Rattle.std.specs.Prelude.{◌≡◌, map};
ghost use Rattle.ice_decode.specs.Direct.{is_extra_of, is_set_among, takes_pad, globals, padins, is_own_among};
ghost use Rattle.ice_decode.specs.Tables.{AreDirect};
ghost use Rattle.ice_decode.specs.FirstFaults.{foreign_extra};

use ice_bits::Bits;
use ice_chip::Chip;

// Whether an extra bit is a global's, where the global has one.
fn is_extra_of(own: Option<(u32, u32, u32)>, extra: (u32, u32, u32)) -> bool
    ensures { result ≡ is_extra_of own extra }
{
    match own {
        None => false,
        Some(own) => own.0 == extra.0 && own.1 == extra.1 && own.2 == extra.2,
    }
}

// Whether an extra bit is among those that are set.
fn is_set_among(extras: &[(u32, u32, u32)], own: Option<(u32, u32, u32)>) -> bool
    ensures { result ≡ is_set_among extras.now own }
{
    for extra in extras {
        if is_extra_of(own, *extra) {
            return true;
        }
    }
    false
}

// Whether a global has the level of a pad.
fn has_pad(chip: &Chip, bits: &Bits, global: u8) -> bool
    ensures { result ≡ takes_pad chip.now bits.now.extras global }
{
    is_set_among(bits.extras(), chip.padin_of(global))
}

// Whether each global has the level of a pad.
fn eight_globals(chip: &Chip, bits: &Bits) -> [bool; 8]
    ensures { result ≡ map (takes_pad chip.now bits.now.extras) globals }
{
    [
        has_pad(chip, bits, 0),
        has_pad(chip, bits, 1),
        has_pad(chip, bits, 2),
        has_pad(chip, bits, 3),
        has_pad(chip, bits, 4),
        has_pad(chip, bits, 5),
        has_pad(chip, bits, 6),
        has_pad(chip, bits, 7),
    ]
}

/// A table of whether each global has the level of a pad. It is made once, and not looked up at each wire: a text may have millions of
/// extra bits, and as many wires may have a global's name. It takes no memory.
pub(crate) fn direct_globals(chip: &Chip, bits: &Bits) -> [bool; 8]
    ensures { AreDirect chip.now bits.now.extras result }
{
    chip.is_chip();
    eight_globals(chip, bits)
}

// The extra bit of each global.
fn padins(chip: &Chip) -> [Option<(u32, u32, u32)>; 8]
    ensures { result ≡ padins chip.now }
{
    [
        chip.padin_of(0),
        chip.padin_of(1),
        chip.padin_of(2),
        chip.padin_of(3),
        chip.padin_of(4),
        chip.padin_of(5),
        chip.padin_of(6),
        chip.padin_of(7),
    ]
}

// Whether an extra bit is some global's.
fn is_own_among(own: &[Option<(u32, u32, u32)>], extra: (u32, u32, u32)) -> bool
    ensures { result ≡ is_own_among own.now extra }
{
    for padin in own {
        if is_extra_of(*padin, extra) {
            return true;
        }
    }
    false
}

/// The first extra bit that is no global's, or None exactly where each is some global's. It takes no memory.
pub(crate) fn foreign_extra(chip: &Chip, extras: &[(u32, u32, u32)]) -> Option<(u32, u32, u32)>
    ensures { result ≡ foreign_extra chip.now extras.now }
{
    let own = padins(chip);
    for extra in extras {
        if !is_own_among(own.as_slice(), *extra) {
            return Some(*extra);
        }
    }
    None
}
