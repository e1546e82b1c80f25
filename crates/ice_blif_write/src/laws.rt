//! Laws of texts of netlists. The functions do nothing: their contracts are the laws.
ghost use Rattle.ice_blif_write.specs.RoundTrip.{WrittenIsRead};

/// The text that is written for a netlist says this netlist up to line numbers and the list of names, where each name is
/// a word that begins no comment, no output of a cell other than a cover is `$undef`, and no pad has the PIN_TYPE 000000 or
/// 010101. In a netlist no name stands twice, and no signal is a port twice.
pub fn written_is_read()
    ensures { WrittenIsRead }
{}
