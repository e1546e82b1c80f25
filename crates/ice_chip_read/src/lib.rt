//! Reading the text of a chip database, line by line.
#![tactic(auto)]

mod bits;
mod extra_bits;
mod fault;
mod front;
mod headings;
mod laws;
mod ranges;
mod read;
mod reading;
mod rows;
mod section;
mod text;
mod words;

pub use fault::ChipStop;
pub use laws::says_chip_or_first_fault;
pub use read::{finish, read_chip, take_first};
pub use reading::Reading;
pub use text::{Taken, take_ahead, take_text};
