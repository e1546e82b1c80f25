//! Names of configuration bits, and values of bits as digits.
ghost use Rattle.std.specs.Prelude.{◌≡◌, ◌++◌, ◌∷◌, [], Some, IfSome, option_map};
ghost use Rattle.ice_base.specs.Places.{cut_at, bit_named, digit_value};

use crate::{BitAt, number_below};

/// The bytes before the first such byte, and those behind it.
#[tactic(auto, using(crate::proofs::BitCuts::cut_begins, crate::proofs::BitCuts::cut_goes_on, crate::proofs::BitCuts::cut_is_here, crate::proofs::BitCuts::cut_is_nowhere))]
pub fn cut_at(byte: u8, bytes: &[u8]) -> Option<(&[u8], &[u8])>
    ensures { cut_at byte bytes.now ≡ option_map (λ cut. (cut.0.now, cut.1.now)) result }
{
    for (i, b) in bytes.iter().enumerate() {
        if *b == byte {
            return Some((&bytes[..i], &bytes[i + 1..]));
        }
    }
    None
}

// The place of the bit with these words for row and column.
#[tactic(auto, using(crate::proofs::PlainBits::bit_is))]
fn bit_at(columns: u8, row: &[u8], column: &[u8]) -> Option<BitAt>
    ensures { IfSome result (λ bit.
        bit_named columns (66 ∷ (row.now ++ 91 ∷ (column.now ++ 93 ∷ []))) ≡ Some bit) }
{
    let row = number_below(16, row)? as u8;
    let col = number_below(u32::from(columns), column)? as u8;
    Some(BitAt { row, col })
}

// The place of the bit, where row and column are of one or two digits, as in all known databases.
fn short_bit(columns: u8, name: &[u8]) -> Option<BitAt>
    ensures { IfSome result (λ bit. bit_named columns name.now ≡ Some bit) }
{
    match name {
        [b'B', a, b'[', c, b']'] => bit_at(columns, &[*a], &[*c]),
        [b'B', a, b'[', c, d, b']'] => bit_at(columns, &[*a], &[*c, *d]),
        [b'B', a, b, b'[', c, b']'] => bit_at(columns, &[*a, *b], &[*c]),
        [b'B', a, b, b'[', c, d, b']'] => bit_at(columns, &[*a, *b], &[*c, *d]),
        _ => None,
    }
}

// The place of the bit, whatever the numbers of digits.
fn any_bit(columns: u8, name: &[u8]) -> Option<BitAt>
    ensures { result ≡ bit_named columns name.now }
{
    let [b'B', place @ ..] = name else {
        return None;
    };
    let (row, place) = cut_at(b'[', place)?;
    let row = number_below(16, row)? as u8;
    let (column, rest) = cut_at(b']', place)?;
    if !rest.is_empty() {
        return None;
    }
    let col = number_below(u32::from(columns), column)? as u8;
    Some(BitAt { row, col })
}

/// The place of the bit that is named `Brow[column]`, among 16 rows and so many columns.
pub fn bit_named(columns: u8, name: &[u8]) -> Option<BitAt>
    ensures { result ≡ bit_named columns name.now }
{
    match short_bit(columns, name) {
        Some(bit) => Some(bit),
        None => any_bit(columns, name),
    }
}

/// The value of a digit, `0` or `1`.
pub fn digit_value(digit: u8) -> Option<bool>
    ensures { result ≡ digit_value digit }
{
    match digit {
        b'0' => Some(false),
        b'1' => Some(true),
        _ => None,
    }
}
