//! Cases as data: the pieces of their texts, what holds for a run, its desk, and what is told of it. It knows no flow.
#![tactic(auto)]

mod desk;
mod pieces;
mod setting;
mod shown;
mod texts;

pub use desk::{desk_of, runs_in, word_text, words_of_run};
pub use pieces::{Draft, Piece, number_at, word_at};
pub use setting::{CaseGate, Part, Setting};
pub use shown::{add_lines, add_meeting, add_number, add_shown};
pub use texts::{Text, find, text_of};
