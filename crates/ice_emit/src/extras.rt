//! The extra bits of the globals that direct global buffers have.
ghost use Rattle.std.specs.Prelude.{◌≡◌, ◌&&◌, nat_eq, OnOk, []};
ghost use Rattle.std.specs.List.{cons_option};
ghost use Rattle.ice_pads.specs.Globals.{numbers};
ghost use Rattle.ice_emit_defs.specs.Written.{takes_direct, extras_among};
ghost use Rattle.ice_emit.specs.Views.{with_extras};

use ice_base::NoMemory;
use ice_bits::Bits;
use ice_chip::Chip;

// Whether a buffer is direct and has the global.
fn takes_at(is_direct: bool, global: u8, number: u8) -> bool
    ensures { result ≡ (is_direct && nat_eq number global) }
{
    is_direct && number == global
}

// Whether a direct global buffer has the global.
fn takes_direct(globals: &[u8], direct: &[bool], number: u8) -> bool
    ensures { result ≡ takes_direct globals.now direct.now number }
{
    for k in 0..globals.len().min(direct.len()) {
        if takes_at(direct[k], globals[k], number) {
            return true;
        }
    }
    false
}

// Adds an extra bit, where there is one.
fn add_extra(bits: &mut Bits, extra: Option<(u32, u32, u32)>) -> Result<(), NoMemory>
    ensures { OnOk result (bits.new ≡ with_extras (cons_option extra []) bits.old) }
{
    match extra {
        None => {}
        Some(extra) => bits.add_extra(extra)?,
    }
    Ok(())
}

// Adds the extra bits of those of these globals that direct buffers have.
fn add_among(
    bits: &mut Bits,
    chip: &Chip,
    globals: &[u8],
    direct: &[bool],
    numbers: &[u8],
) -> Result<(), NoMemory>
    ensures { OnOk result (bits.new
        ≡ with_extras (extras_among chip.now globals.now direct.now numbers.now) bits.old) }
{
    for number in numbers {
        if takes_direct(globals, direct, *number) {
            add_extra(bits, chip.padin_of(*number))?;
        }
    }
    Ok(())
}

/// Adds the extra bit of each global that a direct buffer has, by rising global.
pub(crate) fn add_extras(
    bits: &mut Bits,
    chip: &Chip,
    globals: &[u8],
    direct: &[bool],
) -> Result<(), NoMemory>
    ensures { OnOk result
        (bits.new ≡ with_extras (extras_among chip.now globals.now direct.now numbers) bits.old) }
{
    add_among(bits, chip, globals, direct, &[0, 1, 2, 3, 4, 5, 6, 7])
}
