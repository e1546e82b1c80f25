//! Reading the text of a chip database piece by piece.
#![tactic(auto)]

mod cut;
mod reader;
mod said;

pub use reader::ChipReader;
