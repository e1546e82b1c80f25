//! Laws of the netlists that texts say. The functions do nothing: their contracts are the laws.
ghost use Rattle.ice_blif_laws.specs.NetlistTextLaw.{TextsSayClosedNetlists, NetlistTextsSayNetlists};
ghost use Rattle.ice_blif_laws.specs.ReadNames.{ReadNamesAreKnown};
ghost use Rattle.ice_blif_laws.specs.SameNames.{TextsNameOnce, WrittenShowsTheSame};

/// A text names no signal of its netlist twice.
pub fn texts_name_once()
    ensures { TextsNameOnce }
{}

/// A text with the ports and cells of a sound netlist, by the names of their signals, says a sound netlist, which shows the same.
pub fn written_shows_the_same()
    ensures { WrittenShowsTheSame }
{}

/// Each name of a netlist that a text says is a word, which has a byte and no blank, or that of a hidden signal: the number of a
/// line, a blank, and `in` or `out`.
pub fn read_names_are_known()
    ensures { ReadNamesAreKnown }
{}

/// A netlist text that the reader takes says the closed netlist that the reader makes of it.
pub fn texts_say_closed_netlists()
    ensures { TextsSayClosedNetlists }
{}

/// A netlist text without RAMs that the reader takes says the netlist that the reader makes of it.
pub fn netlist_texts_say_netlists()
    ensures { NetlistTextsSayNetlists }
{}
