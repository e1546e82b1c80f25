//! Words of a netlist text: kinds, the names of their ports, and digits.
ghost use Rattle.std.specs.Prelude.{◌≡◌, ◌<◌, ◌≤◌, ◌++◌, OnOk};
ghost use Rattle.ice_blif_write.specs.Text.{digit_of, digits_of, levels_of, reset_word, kind_word};

use ice_base::NoMemory;
use ice_net::{CellKind, Reset};

// A digit: 0 or 1.
fn digit(bit: u16) -> u8
    requires { bit < 2 }
    ensures { result ≡ digit_of bit }
{
    if bit == 0 { b'0' } else { b'1' }
}

// Writes so many digits of a number, the greatest first.
pub(crate) fn put_digits(out: &mut Vec<u8>, width: u8, number: u16) -> Result<(), NoMemory>
    requires { width ≤ 16 }
    ensures { OnOk result (out.new.items ≡ out.old.items ++ digits_of width number) }
{
    let mut left = width;
    while left > 0 {
        left -= 1;
        out.push(digit((number >> left) % 2))?;
    }
    Ok(())
}

// Writes the levels with a number, the first the lowest digit.
pub(crate) fn put_levels(out: &mut Vec<u8>, width: u8, number: u16) -> Result<(), NoMemory>
    ensures { OnOk result (out.new.items ≡ out.old.items ++ levels_of width number) }
{
    let mut rest = number;
    for _ in 0..width {
        out.push(digit(rest % 2))?;
        rest /= 2;
    }
    Ok(())
}

// How a flip-flop is set or reset, as the end of its word.
fn reset_word(reset: Reset) -> &'static [u8]
    ensures { result.now ≡ reset_word reset }
{
    match reset {
        Reset::Nothing => b"",
        Reset::SyncReset => b"SR",
        Reset::AsyncReset => b"R",
        Reset::SyncSet => b"SS",
        Reset::AsyncSet => b"S",
    }
}

// Writes the word of a flip-flop.
fn put_flop(out: &mut Vec<u8>, falling: bool, enable: bool, reset: Reset) -> Result<(), NoMemory>
    ensures { OnOk result
        (out.new.items ≡ out.old.items ++ kind_word (CellKind.Flop falling enable reset)) }
{
    out.extend_from_slice(b"SB_DFF")?;
    if falling {
        out.push(b'N')?;
    }
    if enable {
        out.push(b'E')?;
    }
    out.extend_from_slice(reset_word(reset))?;
    Ok(())
}

// Writes the word of a kind; that of a cover is empty.
pub(crate) fn put_kind(out: &mut Vec<u8>, kind: CellKind) -> Result<(), NoMemory>
    ensures { OnOk result (out.new.items ≡ out.old.items ++ kind_word kind) }
{
    let word = match kind {
        CellKind::Lut { .. } => b"SB_LUT4".as_slice(),
        CellKind::Cover { .. } => b"".as_slice(),
        CellKind::Carry => b"SB_CARRY".as_slice(),
        CellKind::Flop {
            falling,
            enable,
            reset,
        } => return put_flop(out, falling, enable, reset),
        CellKind::PadCell { .. } => b"SB_IO".as_slice(),
        CellKind::Global => b"SB_GB".as_slice(),
    };
    out.extend_from_slice(word)?;
    Ok(())
}
