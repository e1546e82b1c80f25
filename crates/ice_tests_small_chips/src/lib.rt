//! Texts of small chips for the crates of tests, with changes of them, and what stands at the places of a text.
#![tactic(auto)]

mod places;
mod texts;

pub use places::{begins, count_lines, count_words, line_at, number_at, word_at};
pub use texts::{Change, Sample, text_with};
