//! Laws of chips that texts say. The functions do nothing: the contract of each is its law.
ghost use Rattle.ice_chip_read_laws.specs.ChipTextLaw.{ChipTextsSayRows};
ghost use Rattle.ice_chip_read_laws.specs.Pins.{PinsAreWords};

/// Each pin of a package of a chip that a text says is named by a word.
pub fn pins_are_words()
    ensures { PinsAreWords }
{}

/// A chip text that the reader takes says the rows that the reader makes of it.
pub fn chip_texts_say_rows()
    ensures { ChipTextsSayRows }
{}
