//! The law of bits without a fault, as the contract of a function that does nothing.
ghost use Rattle.ice_decode_laws.specs.Faultless.{PlainBitsHaveNoFault};

/// Bits of which none of the faults is found in their order, and of which no row that is on is found to lead from a memory, have none: no
/// wire has two rows that are on, no row that is on leads from a memory, no function of a PLL, of a pair of pads or of a cascade of block
/// RAMs is set, each extra bit is some global's, no points depend on one another in a circle, and no pad is of a wrong type.
pub fn plain_bits_have_no_fault()
    ensures { PlainBitsHaveNoFault }
{}
