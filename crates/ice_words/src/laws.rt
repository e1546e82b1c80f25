//! Laws of what hands do, each as the contract of a function that does nothing.
ghost use Rattle.ice_words.specs.Deeds.{LawfulAllAlong};
ghost use Rattle.ice_words.specs.Lawful.{ClosingLaw};
ghost use Rattle.ice_words.specs.Showing.{WordsShowCore};

/// Where all hands are joined, each was answered None or has claimed nothing, and all parts are lawful, the counts at the close are
/// those of the new routes beside the routes of the nets that didn't move, and the numbers of claims, releases and holds are what these routes need.
pub fn closing_counts_are_of_routes()
    ensures { ClosingLaw }
{}

/// A hand's part that is lawful after all steps of the hand was lawful after each front of them.
pub fn lawful_parts_were_lawful()
    ensures { LawfulAllAlong }
{}

/// Where the rule holds, every part is lawful and at most eight parts have drawn a number, the words show a state that the
/// core reaches.
pub fn words_show_a_core()
    ensures { WordsShowCore }
{}
