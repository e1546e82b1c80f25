//! The pads of a chip.
ghost use Rattle.std.specs.Prelude.{◌≡◌, ◌<◌, ◌≤◌, ◌+◌, ◌*◌, if◌then◌else◌};
ghost use Rattle.ice_bits.specs.Configuration.{bits_of};
ghost use Rattle.ice_decode.specs.Pads.{is_enabled, pin_type_digit, pin_type, has_input_register, has_output_register};

use crate::settings::setting;
use ice_bits::Bits;
use ice_chip::{Chip, Pad, input_enable_function, pin_type_function};

/// Whether the input buffer of a pad is enabled. It takes no memory, as the other readers.
pub fn is_enabled(chip: &Chip, bits: &Bits, pad: Pad) -> bool
    ensures { result ≡ is_enabled chip.now (bits_of bits.now) pad }
{
    match chip.ieren_of(pad) {
        None => true,
        Some(enable) => !setting(
            chip,
            bits,
            enable.tile,
            &input_enable_function(enable.pio),
            0,
        ),
    }
}

// A digit of the type of a pad.
fn pin_type_digit(chip: &Chip, bits: &Bits, pad: Pad, place: u8) -> bool
    ensures { result ≡ pin_type_digit chip.now (bits_of bits.now) pad place }
{
    setting(chip, bits, pad.tile, &pin_type_function(pad.pio, place), 0)
}

// The number with one digit more at its lower end.
fn with_digit(digit: bool, number: u8) -> u8
    requires { number < 64 }
    ensures value { result ≡ (if digit then 1 else 0) + 2 * number }
    ensures bound { result ≤ 1 + 2 * number }
{
    u8::from(digit) + 2 * number
}

/// The type of a pad, from 0 to 63: its upper four digits are the output part, and its lower two the input part. A pad at a place that
/// has no IO tile has the type 0.
pub fn pin_type(chip: &Chip, bits: &Bits, pad: Pad) -> u8
    ensures value { result ≡ pin_type chip.now (bits_of bits.now) pad }
    ensures bound { result < 64 }
{
    let number = with_digit(pin_type_digit(chip, bits, pad, 5), 0);
    let number = with_digit(pin_type_digit(chip, bits, pad, 4), number);
    let number = with_digit(pin_type_digit(chip, bits, pad, 3), number);
    let number = with_digit(pin_type_digit(chip, bits, pad, 2), number);
    let number = with_digit(pin_type_digit(chip, bits, pad, 1), number);
    with_digit(pin_type_digit(chip, bits, pad, 0), number)
}

/// Whether what a pad gives goes through a register.
pub fn has_input_register(chip: &Chip, bits: &Bits, pad: Pad) -> bool
    ensures { result ≡ has_input_register chip.now (bits_of bits.now) pad }
{
    pin_type(chip, bits, pad) % 4 == 0b00
}

/// Whether a pad drives what a register keeps.
pub fn has_output_register(chip: &Chip, bits: &Bits, pad: Pad) -> bool
    ensures { result ≡ has_output_register chip.now (bits_of bits.now) pad }
{
    pin_type(chip, bits, pad) / 4 == 0b0101
}
