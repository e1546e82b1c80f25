//! Reading and writing the text of configuration bits (ASC).
#![tactic(auto)]

mod fault;
mod headings;
mod hex;
mod laws;
mod lines;
mod read;
mod reading;
mod rows;
mod section;
mod words;
mod write;

pub use fault::AscFault;
pub use laws::{says_bits_or_first_fault, written_is_read};
pub use read::read_asc;
pub use write::write_asc;
