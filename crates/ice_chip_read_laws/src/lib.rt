//! Laws of chips that texts say: the rows of a text, and the names of pins.
#![tactic(auto)]

mod laws;

pub use laws::{chip_texts_say_rows, pins_are_words};
