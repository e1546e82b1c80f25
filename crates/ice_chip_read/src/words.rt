//! Words of headings and rows that are numbers.
ghost use Rattle.std.specs.Prelude.{◌∷◌};
ghost use Rattle.ice_chip_read.specs.Words.{number, two, three, no_word_left};
ghost use Rattle.ice_chip_read.specs.Lines.{one_word};
ghost use Rattle.ice_chip_read.specs.Views.{Says};

use ice_base::{PlainWords, number_of};
use ice_chip::ChipFault;

/// The first of these words, which must be a number.
pub fn number(line: u32, words: &mut PlainWords<'_>) -> Result<u32, ChipFault>
    ensures { Says (λ n. (n, words.new)) result (number line words.old) }
{
    let Some(word) = words.next() else {
        return Err(ChipFault::BadNumber { line });
    };
    let Some(number) = number_of(word) else {
        return Err(ChipFault::BadNumber { line });
    };
    Ok(number)
}

/// The first two of these words, which must be numbers.
pub fn two(line: u32, words: &mut PlainWords<'_>) -> Result<(u32, u32), ChipFault>
    ensures { Says (λ n. (n, words.new)) result (two line words.old) }
{
    let first = number(line, words)?;
    let second = number(line, words)?;
    Ok((first, second))
}

/// The first three of these words, which must be numbers.
pub fn three(line: u32, words: &mut PlainWords<'_>) -> Result<(u32, u32, u32), ChipFault>
    ensures { Says (λ n. (n, words.new)) result (three line words.old) }
{
    let first = number(line, words)?;
    let (second, third) = two(line, words)?;
    Ok((first, second, third))
}

/// This word and the first of those behind it, which must be numbers.
pub fn two_from(
    line: u32,
    first: &[u8],
    words: &mut PlainWords<'_>,
) -> Result<(u32, u32), ChipFault>
    ensures { Says (λ n. (n, words.new)) result (two line (first.now ∷ words.old)) }
{
    let Some(first) = number_of(first) else {
        return Err(ChipFault::BadNumber { line });
    };
    let second = number(line, words)?;
    Ok((first, second))
}

/// This word and the first two of those behind it, which must be numbers.
pub fn three_from(
    line: u32,
    first: &[u8],
    words: &mut PlainWords<'_>,
) -> Result<(u32, u32, u32), ChipFault>
    ensures { Says (λ n. (n, words.new)) result (three line (first.now ∷ words.old)) }
{
    let Some(first) = number_of(first) else {
        return Err(ChipFault::BadNumber { line });
    };
    let (second, third) = two(line, words)?;
    Ok((first, second, third))
}

/// Refuses a line in which a word is left.
pub fn ended(line: u32, mut words: PlainWords<'_>) -> Result<(), ChipFault>
    ensures { Says (λ u. u) result (no_word_left line words.entry) }
{
    if words.next().is_some() {
        return Err(ChipFault::BadNumber { line });
    }
    Ok(())
}

/// The one word that is left.
pub fn one_word<'a>(line: u32, mut words: PlainWords<'a>) -> Result<&'a [u8], ChipFault>
    ensures { Says (λ word. word.now) result (one_word line words.entry) }
{
    let Some(word) = words.next() else {
        return Err(ChipFault::BadNumber { line });
    };
    ended(line, words)?;
    Ok(word)
}
