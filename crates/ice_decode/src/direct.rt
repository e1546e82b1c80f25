//! Globals that have the level of a pad, by the table of all globals.
ghost use Rattle.std.specs.Prelude.{◌≡◌, slice_index_or, false};
ghost use Rattle.ice_decode.specs.Direct.{takes_pad};
ghost use Rattle.ice_decode.specs.Tables.{AreDirect};

use ice_bits::Bits;
use ice_chip::Chip;

/// What the table of all globals has of one.
pub(crate) fn direct_at(direct: &[bool], global: u8) -> bool
    ensures { result ≡ slice_index_or direct.now global false }
{
    direct.get(global as usize).copied().unwrap_or(false)
}

/// Whether a global has the level of a pad, by the table of all globals.
pub(crate) fn takes_pad(chip: &Chip, bits: &Bits, direct: &[bool], global: u8) -> bool
    requires { AreDirect chip.now bits.now.extras direct.now }
    ensures { result ≡ takes_pad chip.now bits.now.extras global }
{
    let (_chip, _bits) = (chip, bits);
    direct_at(direct, global)
}
