//! What stands at the front of a text in the forms in which databases have their lines: words with one space between them,
//! numbers of at most eight digits, and a line feed behind the last word. Each byte is looked at once.
ghost use Rattle.std.specs.Prelude.{◌≡◌, ◌∷◌, ◌<◌, false, true, IfSome, length, take};
ghost use Rattle.std.specs.Char.{is_ascii_digit};
ghost use Rattle.ice_base.specs.Text.{with_digit};
ghost use Rattle.ice_chip_read.specs.Fronts.{AreBitsAhead, AreDigits, AreSwitchesAhead, IsBitAhead, IsGroupAhead, IsLastAhead, IsNameAhead, IsNameRowAhead, IsNetAhead, IsNumberAhead, IsRowAhead, IsWireAhead};
ghost use Rattle.ice_chip_read.specs.PlainRows.{AreAhead, IsAhead, has_blank};

use ice_base::{BitAt, begins_with};
use ice_chip::BitList;
use std::alloc::Global;

// How many bits a group has at most that needs no memory of their own.
const FEW_BITS: usize = 8;

/// What is behind this byte at the front.
pub fn behind_byte(byte: u8, text: &[u8]) -> Option<&[u8]>
    ensures { IfSome result (λ rest. text.now ≡ byte ∷ rest.now) }
{
    match text {
        [first, rest @ ..] if *first == byte => Some(rest),
        _ => None,
    }
}

// ---- numbers

// The number that the digits of a number of at most eight digits and one more write.
fn longer(number: u32, digit: u8) -> u32
    requires number { number < 100000000 }
    requires digit { is_ascii_digit digit ≡ true }
    ensures { result ≡ with_digit number digit }
{
    number * 10 + u32::from(digit - b'0')
}

// The number that so many digits at the front write, where there are any, and what is behind them.
#[tactic(auto, using(crate::proofs::Numbers::number_stands))]
fn behind_digits(text: &[u8], count: usize, number: u32) -> Option<(u32, &[u8])>
    requires within { count < length text.now }
    requires few { count < 9 }
    requires digits { AreDigits text.now count number }
    ensures { IfSome result (λ r. IsNumberAhead text.now r.0 r.1.now) }
{
    if count == 0 {
        return None;
    }
    Some((number, &text[count..]))
}

// The number at the front, and what is behind its digits.
fn number_ahead(text: &[u8]) -> Option<(u32, &[u8])>
    ensures { IfSome result (λ r. IsNumberAhead text.now r.0 r.1.now) }
{
    let mut number = 0u32;
    for k in 0..text.len().min(9) {
        let digit = text[k];
        if !digit.is_ascii_digit() {
            return behind_digits(text, k, number);
        }
        number = longer(number, digit);
    }
    None
}

// The number in front of a space, and what is behind that.
#[tactic(auto, using(crate::proofs::Fronts::space_behind))]
fn spaced_number(text: &[u8]) -> Option<(u32, &[u8])>
    ensures { IfSome result (λ r. IsAhead text.now r.0 r.1.now) }
{
    let (number, rest) = number_ahead(text)?;
    let [b' ', behind @ ..] = rest else {
        return None;
    };
    Some((number, behind))
}

// The number in front of a line feed, and what is behind that.
#[tactic(auto, using(crate::proofs::Fronts::feed_behind))]
fn last_number(text: &[u8]) -> Option<(u32, &[u8])>
    ensures { IfSome result (λ r. IsLastAhead text.now r.0 r.1.now) }
{
    let (number, rest) = number_ahead(text)?;
    let [b'\n', behind @ ..] = rest else {
        return None;
    };
    Some((number, behind))
}

// ---- rows

/// The digits of a row of a group of so many bits, the number of its source, and what is behind its line.
#[tactic(auto, using(crate::proofs::Fronts::row_stands))]
pub fn row_ahead(bits: usize, text: &[u8]) -> Option<(&[u8], u32, &[u8])>
    ensures { IfSome result (λ r. IsRowAhead bits text.now r.0.now r.1 r.2.now) }
{
    if bits == 0 || bits >= text.len() {
        return None;
    }
    if text[bits] != b' ' {
        return None;
    }
    let (source, behind) = last_number(&text[bits + 1..])?;
    Some((&text[..bits], source, behind))
}

// ---- names

// So many bytes at the front, where they are a name that a line feed ends, and what is behind that.
fn behind_name(text: &[u8], count: usize) -> Option<(&[u8], &[u8])>
    requires within { count < length text.now }
    requires signs { has_blank (take count text.now) ≡ false }
    ensures { IfSome result (λ r. IsNameAhead text.now r.0.now r.1.now) }
{
    if count == 0 || text[count] != b'\n' {
        return None;
    }
    if begins_with(b'#', text) {
        return None;
    }
    Some((&text[..count], &text[count + 1..]))
}

// The name in front of a line feed, and what is behind that.
#[tactic(auto, using(crate::proofs::Fronts::sign_joins))]
fn name_ahead(text: &[u8]) -> Option<(&[u8], &[u8])>
    ensures { IfSome result (λ r. IsNameAhead text.now r.0.now r.1.now) }
{
    for k in 0..text.len() {
        if text[k] < 33 {
            return behind_name(text, k);
        }
    }
    None
}

/// `X Y NAME`, and what is behind the line.
#[tactic(auto, using(crate::proofs::Fronts::name_row_stands))]
pub fn name_row_ahead(text: &[u8]) -> Option<((u32, u32), &[u8], &[u8])>
    ensures { IfSome result (λ r. IsNameRowAhead text.now r.0 r.1.now r.2.now) }
{
    let (x, rest) = spaced_number(text)?;
    let (y, rest) = spaced_number(rest)?;
    let (name, behind) = name_ahead(rest)?;
    Some(((x, y), name, behind))
}

// ---- headings

// What is behind `.net` and a space.
#[tactic(auto, using(crate::proofs::Fronts::wire_stands))]
fn wire_ahead(text: &[u8]) -> Option<&[u8]>
    ensures { IfSome result (λ rest. IsWireAhead text.now rest.now) }
{
    match text {
        [b'.', b'n', b'e', b't', b' ', rest @ ..] => Some(rest),
        _ => None,
    }
}

/// `.net N`, and what is behind the line.
#[tactic(auto, using(crate::proofs::Fronts::net_stands))]
pub fn net_ahead(text: &[u8]) -> Option<(u32, &[u8])>
    ensures { IfSome result (λ r. IsNetAhead text.now r.0 r.1.now) }
{
    let rest = wire_ahead(text)?;
    let (wire, behind) = last_number(rest)?;
    Some((wire, behind))
}

// The place of the bit that is named `Brow[column]` at the front, and what is behind the name.
fn bit_ahead(text: &[u8]) -> Option<(BitAt, &[u8])>
    ensures { IfSome result (λ r. IsBitAhead text.now r.0 r.1.now) }
{
    let front = behind_byte(b'B', text)?;
    let (row, middle) = number_ahead(front)?;
    let back = behind_byte(b'[', middle)?;
    let (column, last) = number_ahead(back)?;
    let behind = behind_byte(b']', last)?;
    if row >= 16 {
        return None;
    }
    if column >= 54 {
        return None;
    }
    let bit = BitAt {
        row: row as u8,
        col: column as u8,
    };
    Some((bit, behind))
}

// The places of at most eight bits that are named up to a line feed, one or more, and what is behind that.
fn bits_ahead(alloc: Global, text: &[u8]) -> Option<(BitList, &[u8])>
    ensures { IfSome result (λ r. AreBitsAhead text.now r.0.items r.1.now) }
{
    let mut bits = BitList::new(alloc);
    let mut left = text;
    for k in 0..FEW_BITS {
        let (bit, rest) = bit_ahead(left)?;
        bits.push_reserved(bit);
        if let Some(behind) = behind_byte(b'\n', rest) {
            return Some((bits, behind));
        }
        let behind = behind_byte(b' ', rest)?;
        left = behind;
    }
    None
}

// `X Y DST` and a space, and what is behind them.
#[tactic(auto, using(crate::proofs::Fronts::three_are_ahead))]
fn three_ahead(text: &[u8]) -> Option<((u32, u32, u32), &[u8])>
    ensures { IfSome result (λ r. AreAhead text.now r.0 r.1.now) }
{
    let (x, rest) = spaced_number(text)?;
    let (y, rest) = spaced_number(rest)?;
    let (wire, rest) = spaced_number(rest)?;
    Some(((x, y, wire), rest))
}

// What is behind `.buffer` or `.routing` and a space.
#[tactic(auto, using(crate::proofs::Fronts::buffer_stands, crate::proofs::Fronts::routing_stands))]
fn switches_ahead(text: &[u8]) -> Option<&[u8]>
    ensures { IfSome result (λ rest. AreSwitchesAhead text.now rest.now) }
{
    match text {
        [b'.', b'b', b'u', b'f', b'f', b'e', b'r', b' ', rest @ ..] => Some(rest),
        [
            b'.',
            b'r',
            b'o',
            b'u',
            b't',
            b'i',
            b'n',
            b'g',
            b' ',
            rest @ ..,
        ] => Some(rest),
        _ => None,
    }
}

/// `.buffer X Y DST B..` and `.routing X Y DST B..`, as the three numbers and the places of the bits, and what is behind the
/// line.
#[tactic(auto, using(crate::proofs::Fronts::group_is_ahead))]
pub fn group_ahead(alloc: Global, text: &[u8]) -> Option<((u32, u32, u32), BitList, &[u8])>
    ensures { IfSome result (λ r. IsGroupAhead text.now r.0 r.1.items r.2.now) }
{
    let rest = switches_ahead(text)?;
    let (numbers, rest) = three_ahead(rest)?;
    let (bits, behind) = bits_ahead(alloc, rest)?;
    Some((numbers, bits, behind))
}
