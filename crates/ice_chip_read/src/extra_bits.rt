//! Rows of extra bits.
ghost use Rattle.std.specs.Prelude.{◌≡◌, option_map};
ghost use Rattle.ice_chip.specs.Names.{behind, separated_number, padin_global};
ghost use Rattle.ice_chip_read.specs.Lines.{extra_bit_row, extra_row};
ghost use Rattle.ice_chip_read.specs.Views.{Gives, reading_view};

use crate::ChipStop;
use crate::ranges::global_in;
use crate::reading::Reading;
use crate::words::{ended, three};
use ice_base::{PlainWords, number_of};

// What stands behind a prefix.
#[tactic(auto, using(ice_chip_names::proofs::Prefixes::behind_is))]
fn behind<'a>(prefix: &[u8], name: &'a [u8]) -> Option<&'a [u8]>
    ensures { option_map (λ rest. rest.now) result ≡ behind prefix.now name.now }
{
    name.strip_prefix(prefix)
}

// The number behind a separator.
fn separated_number(rest: &[u8]) -> Option<u32>
    ensures { result ≡ separated_number rest.now }
{
    match rest {
        [separator, digits @ ..] if *separator == b'.' || *separator == b'_' => number_of(digits),
        _ => None,
    }
}

// The number of the global that the name of an extra bit names.
fn padin_global(name: &[u8]) -> Option<u32>
    ensures { result ≡ padin_global name.now }
{
    match behind(b"padin_glb_netwk", name) {
        Some(rest) => separated_number(rest),
        None => None,
    }
}

// `padin_glb_netwk.N BANK X Y`, behind the name
fn extra_bit_row(
    reading: &mut Reading,
    line: u32,
    global: u32,
    mut words: PlainWords<'_>,
) -> Result<(), ChipStop>
    ensures { Gives (λ _. reading_view reading.new) result
        (extra_bit_row (reading_view reading.old) line global words.entry) }
{
    let place = three(line, &mut words)?;
    ended(line, words)?;
    let global = global_in(line, global)?;
    reading.parts.padin.push((global, place))?;
    Ok(())
}

/// A row of an extra bit; those of other functions are read over, whatever stands in them.
pub fn extra_row(
    reading: &mut Reading,
    line: u32,
    name: &[u8],
    words: PlainWords<'_>,
) -> Result<(), ChipStop>
    ensures { Gives (λ _. reading_view reading.new) result
        (extra_row (reading_view reading.old) line (padin_global name.now) words.entry) }
{
    match padin_global(name) {
        Some(global) => extra_bit_row(reading, line, global, words),
        None => Ok(()),
    }
}
