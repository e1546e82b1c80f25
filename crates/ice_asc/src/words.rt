//! Words that write places of tiles, extra bits and rows of bits.
ghost use Rattle.std.specs.Prelude.{◌≡◌, map};
ghost use Rattle.ice_base.specs.Lists.{all_known};
ghost use Rattle.ice_base.specs.Places.{digit_value};
ghost use Rattle.ice_asc.specs.Words.{row_of_words, tile_of_words, extra_of_words};
ghost use Rattle.ice_asc.specs.Grammar.{known_row};
ghost use Rattle.ice_asc.specs.Views.{Gives};

use crate::fault::{AscFault, AscStop};
use ice_base::{TileAt, WordIter, digit_value, number_of};
use std::alloc::Global;

/// The place of a tile that these words write: two numbers below 65,536.
pub fn tile_of(mut words: WordIter<'_>) -> Option<TileAt>
    ensures { result ≡ tile_of_words words.entry }
{
    let x = words.next()?;
    let y = words.next()?;
    if words.next().is_some() {
        return None;
    }
    let x = u16::try_from(number_of(x)?).ok()?;
    let y = u16::try_from(number_of(y)?).ok()?;
    Some(TileAt { x, y })
}

/// The extra bit that these words write: three numbers.
pub fn extra_of(mut words: WordIter<'_>) -> Option<(u32, u32, u32)>
    ensures { result ≡ extra_of_words words.entry }
{
    let bank = words.next()?;
    let column = words.next()?;
    let row = words.next()?;
    if words.next().is_some() {
        return None;
    }
    Some((number_of(bank)?, number_of(column)?, number_of(row)?))
}

// The bits that these digits write.
fn known_bits(alloc: Global, line: u32, digits: &[u8]) -> Result<Vec<bool>, AscStop>
    ensures { Gives (λ row. row.items) result
        (known_row line (all_known (map digit_value digits.now))) }
{
    let mut row = Vec::with_capacity(alloc, digits.len())?;
    for digit in digits {
        let Some(bit) = digit_value(*digit) else {
            return Err(AscStop::Fault(AscFault::BadRow { line }));
        };
        row.push(bit)?;
    }
    Ok(row)
}

/// The row of so many columns that the words of a line write.
pub fn row_of(
    alloc: Global,
    line: u32,
    columns: u8,
    word: &[u8],
    mut others: WordIter<'_>,
) -> Result<Vec<bool>, AscStop>
    ensures { Gives (λ row. row.items) result
        (known_row line (row_of_words columns word.now others.entry)) }
{
    if others.next().is_some() || word.len() != usize::from(columns) {
        return Err(AscStop::Fault(AscFault::BadRow { line }));
    }
    known_bits(alloc, line, word)
}
