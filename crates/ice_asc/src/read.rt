//! Reading a text of bits.
ghost use Rattle.std.specs.Prelude.{◌≡◌, IfOk};
ghost use Rattle.ice_bits.specs.Grids.{IsOf};
ghost use Rattle.ice_asc.specs.Answers.{Answers};
ghost use Rattle.ice_asc.specs.Grammar.{asc_in};
ghost use Rattle.ice_asc.specs.Views.{Gives};

use crate::AscFault;
use crate::fault::AscStop;
use crate::lines::take_lines;
use crate::reading::{begin, end};
use ice_base::lines_of;
use ice_bits::Bits;
use ice_chip::Chip;
use std::alloc::Global;

// The bits that a text says, or why reading stops.
fn read_bits(alloc: Global, text: &[u8], chip: &Chip) -> Result<Bits, AscStop>
    ensures { Gives (λ bits. bits) result (asc_in chip.now text.now) }
{
    let mut reading = begin(alloc, chip)?;
    if let Err(stop) = take_lines(alloc, chip, &mut reading, lines_of(text)) {
        drop(reading);
        return Err(stop);
    }
    Ok(end(reading)?)
}

/// The bits of the chip that a text says, or its first fault: tiles that the text doesn't name are 0. Want of memory may
/// come before any fault.
pub fn read_asc(alloc: Global, text: &[u8], chip: &Chip) -> Result<Bits, AscFault>
    ensures answers { Answers result (asc_in chip.now text.now) }
    ensures form { IfOk result (IsOf chip.now) }
{
    Ok(read_bits(alloc, text, chip)?)
}
