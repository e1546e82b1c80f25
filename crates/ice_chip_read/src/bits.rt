//! Names of configuration bits, and values of rows.
ghost use Rattle.std.specs.Prelude.{◌≡◌, IfSome, Some};
ghost use Rattle.ice_base.specs.Places.{bits_named, values_in};
ghost use Rattle.ice_chip_read.specs.Lines.{bits_at, group_bits, values_at, known_values};
ghost use Rattle.ice_chip_read.specs.Views.{Gives};

use crate::ChipStop;
use ice_base::{PlainWords, bit_named, digit_value};
use ice_chip::{BitList, ChipFault, ValueList};
use std::alloc::Global;

// How many values a row has at most that need no memory of their own.
const FEW_VALUES: usize = 8;

/// The places of the bits with these names, among 16 rows and so many columns.
#[tactic(auto, using(ice_base::proofs::KnownLists::all_begin, ice_base::proofs::KnownLists::known_joins))]
pub fn bits(
    alloc: Global,
    line: u32,
    columns: u8,
    mut names: PlainWords<'_>,
) -> Result<BitList, ChipStop>
    ensures { Gives (λ bits. bits.items) result (bits_at line (bits_named columns names.entry)) }
{
    let mut bits = BitList::new(alloc);
    while let Some(name) = names.next() {
        let Some(bit) = bit_named(columns, name) else {
            return Err(ChipStop::Fault(ChipFault::BadBit { line }));
        };
        bits.push(bit)?;
    }
    Ok(bits)
}

/// The bits of a group, one or more.
pub fn group_bits(alloc: Global, line: u32, names: PlainWords<'_>) -> Result<BitList, ChipStop>
    ensures { Gives (λ bits. bits.items) result (group_bits line names.entry) }
{
    let bits = bits(alloc, line, 54, names)?;
    if bits.is_empty() {
        return Err(ChipStop::Fault(ChipFault::BadBit { line }));
    }
    Ok(bits)
}

/// The values that at most eight digits write, which need no memory of their own; nothing where one is no digit of a value, or
/// there are more.
#[inline(always)]
#[tactic(auto, using(ice_base::proofs::KnownLists::all_begin))]
pub fn few_values(alloc: Global, digits: &[u8]) -> Option<ValueList>
    ensures { IfSome result (λ values. values_in digits.now ≡ Some values.items) }
{
    if digits.len() > FEW_VALUES {
        return None;
    }
    let mut values = ValueList::new(alloc);
    for digit in digits {
        let value = digit_value(*digit)?;
        values.push_reserved(value);
    }
    Some(values)
}

// The values that these digits write.
#[tactic(auto, using(ice_base::proofs::KnownLists::all_begin, ice_base::proofs::KnownLists::value_joins, ice_base::proofs::KnownLists::value_stops, ice_base::proofs::KnownLists::values_end))]
fn known_values(alloc: Global, line: u32, digits: &[u8]) -> Result<ValueList, ChipStop>
    ensures { Gives (λ values. values.items) result (known_values line (values_in digits.now)) }
{
    let mut values = ValueList::with_capacity(alloc, digits.len())?;
    for digit in digits {
        let Some(value) = digit_value(*digit) else {
            return Err(ChipStop::Fault(ChipFault::BadValues { line }));
        };
        values.push(value)?;
    }
    Ok(values)
}

/// The values of a row, one for each of its group's bits.
pub fn values(alloc: Global, line: u32, bits: usize, digits: &[u8]) -> Result<ValueList, ChipStop>
    ensures { Gives (λ values. values.items) result (values_at line bits digits.now) }
{
    if digits.len() != bits {
        return Err(ChipStop::Fault(ChipFault::BadValues { line }));
    }
    known_values(alloc, line, digits)
}
