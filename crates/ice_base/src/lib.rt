//! The things that every layer of the flow speaks of: numbers of wires, nets, rows and signals, places
//! of tiles and bits, names, lines and words of a text, and want of memory. In specs/ and proofs/ stand the
//! definitions and lemmas that speak of these and of std alone.
#![tactic(auto)]

mod bit;
mod bit_name;
mod comments;
mod decimal;
mod lines;
mod memory;
mod name;
mod number;
mod plain;
mod sink;
mod words;

pub use bit::BitAt;
pub use bit_name::{bit_named, cut_at, digit_value};
pub use comments::{PlainWords, begins_with, plain_words_of};
pub use decimal::{number_below, number_of};
pub use lines::{Line, LineIter, lines_of};
pub use memory::{NoMemory, both, to_u32};
pub use name::{Name, name_of};
pub use number::{NetNo, RowNo, SignalNo, TileAt, WireNo};
pub use plain::{PlainLine, PlainLines, plain_lines};
pub use sink::Sink;
pub use words::{WordIter, no_words, words_of};
