//! The words of a block RAM as rows of digits.
ghost use Rattle.std.specs.Prelude.{◌≡◌, ◌<◌, ◌++◌, map, OnOk};
ghost use Rattle.std.specs.List.{range_with_len};
ghost use Rattle.ice_base.specs.Lists.{all_known};
ghost use Rattle.ice_asc.specs.Hex.{hex_value, digit_bit, row_bit, row_word, row_words, values_of_line, hex_digit, one_or_zero, four_bits, word_bit, digit_at, row_digit};
ghost use Rattle.ice_asc.specs.Grammar.{known_values};
ghost use Rattle.ice_asc.specs.Views.{Gives};

use crate::fault::{AscFault, AscStop};
use ice_base::{NoMemory, WordIter};
use ice_bits::RamWord;
use std::alloc::Global;

/// How many digits a row has.
const DIGITS: usize = 64;

/// How many words a row has.
const WORDS: u16 = 16;

// The value of a digit.
fn hex_value(digit: u8) -> Option<u8>
    ensures { result ≡ hex_value digit }
{
    if 48 <= digit && digit < 58 {
        return Some(digit - 48);
    }
    if 97 <= digit && digit < 103 {
        return Some(digit - 87);
    }
    if 65 <= digit && digit < 71 {
        return Some(digit - 55);
    }
    None
}

// The values of these digits.
fn known_values(alloc: Global, line: u32, digits: &[u8]) -> Result<Vec<u8>, AscStop>
    ensures { Gives (λ values. values.items) result
        (known_values line (all_known (map hex_value digits.now))) }
{
    let mut values = Vec::with_capacity(alloc, digits.len())?;
    for digit in digits {
        let Some(value) = hex_value(*digit) else {
            return Err(AscStop::Fault(AscFault::BadRow { line }));
        };
        values.push(value)?;
    }
    Ok(values)
}

// A bit of a digit, from the lowest one.
fn digit_bit(value: u8, bit: u16) -> bool
    requires { bit < 4 }
    ensures { result ≡ digit_bit value bit }
{
    (value >> bit) % 2 == 1
}

// A bit of the number that the digits of a row write.
fn row_bit(values: &[u8], bit: u16) -> bool
    requires { bit < 256 }
    ensures { result ≡ row_bit values.now bit }
{
    let value = values.get(usize::from(63 - bit / 4)).copied().unwrap_or(0);
    digit_bit(value, bit % 4)
}

// The word of this number in a row.
fn row_word(values: &[u8], number: u16) -> RamWord
    requires { number < 16 }
    ensures { result ≡ row_word values.now number }
{
    let mut word = [false; 16];
    for bit in 0..16 {
        word[usize::from(bit)] = row_bit(values, 16 * number + bit);
    }
    word
}

// Adds the words of a row, one after another.
fn push_words(values: &[u8], words: &mut Vec<RamWord>) -> Result<(), NoMemory>
    ensures { OnOk result (words.new.items
        ≡ words.old.items ++ map (row_word values.now) (range_with_len 0 16)) }
{
    for number in 0..WORDS {
        words.push(row_word(values, number))?;
    }
    Ok(())
}

/// Adds the sixteen words that digits of these values write.
pub fn add_words(values: &[u8], words: &mut Vec<RamWord>) -> Result<(), NoMemory>
    ensures { OnOk result (words.new.items ≡ words.old.items ++ row_words values.now) }
{
    push_words(values, words)
}

/// The values of the digits that the words of a line write.
pub fn row_values(
    alloc: Global,
    line: u32,
    word: &[u8],
    mut others: WordIter<'_>,
) -> Result<Vec<u8>, AscStop>
    ensures { Gives (λ values. values.items) result
        (known_values line (values_of_line word.now others.entry)) }
{
    if others.next().is_some() || word.len() != DIGITS {
        return Err(AscStop::Fault(AscFault::BadRow { line }));
    }
    known_values(alloc, line, word)
}

// The digit of a value below 16.
fn hex_digit(value: u8) -> u8
    requires { value < 16 }
    ensures { result ≡ hex_digit value }
{
    if value < 10 { 48 + value } else { 87 + value }
}

fn one_or_zero(bit: bool) -> u8
    ensures value { result ≡ one_or_zero bit }
    ensures few { result < 2 }
{
    if bit { 1 } else { 0 }
}

// The value of four bits.
fn four_bits(a: bool, b: bool, c: bool, d: bool) -> u8
    ensures value { result ≡ four_bits a b c d }
    ensures few { result < 16 }
{
    one_or_zero(a) + 2 * one_or_zero(b) + 4 * one_or_zero(c) + 8 * one_or_zero(d)
}

// A bit of all words in a row.
fn word_bit(words: &[RamWord], bit: u16) -> bool
    ensures { result ≡ word_bit words.now bit }
{
    let Some(word) = words.get(usize::from(bit / 16)) else {
        return false;
    };
    word.get(usize::from(bit % 16)).copied().unwrap_or(false)
}

// The digit that stands for four bits of all words in a row, from this one on.
fn digit_at(words: &[RamWord], bit: u16) -> u8
    requires { bit < 4096 }
    ensures { result ≡ digit_at words.now bit }
{
    hex_digit(four_bits(
        word_bit(words, bit),
        word_bit(words, bit + 1),
        word_bit(words, bit + 2),
        word_bit(words, bit + 3),
    ))
}

/// The digit at a place of a row of the words.
pub fn row_digit(words: &[RamWord], row: u16, place: u16) -> u8
    requires row { row < 16 }
    requires place { place < 64 }
    ensures { result ≡ row_digit words.now row place }
{
    digit_at(words, 256 * row + 4 * (63 - place))
}
