//! Laws of the faults that functions make. The functions do nothing: their contracts are the laws.
ghost use Rattle.ice_chip.specs.FirstLacking.{LacksFunctionIsFirst};
ghost use Rattle.ice_chip.specs.FirstShared.{SharedFunctionIsFirst};

/// The lines of a shared bit are those of two uses that clash, and no two uses that clash have a lesser later line, or
/// the same and a lesser earlier line. There are none exactly where no two uses clash.
pub fn shared_function_is_first()
    ensures { SharedFunctionIsFirst }
{}

/// The answer is line 0 where a kind with a tile has no function of a name that it needs, which is one that is read in the
/// kind, but none of block RAMs, and a column buffer's only in logic and memory that is a source of these. Where nothing is lacking, it is the
/// least line of a read function of a kind with a tile that has a wrong number of bits, and there is none exactly where
/// no such function is there.
pub fn lacks_function_is_first()
    ensures { LacksFunctionIsFirst }
{}
