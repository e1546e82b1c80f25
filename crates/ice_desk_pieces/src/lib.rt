//! Reading a file piece by piece into what stands for the text read so far.
#![tactic(auto)]

mod read;
mod taker;

pub use read::read_pieces;
pub use taker::Taker;
