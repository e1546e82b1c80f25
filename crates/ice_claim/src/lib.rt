//! The table by which workers take whole nets, each wire exclusively: word 0 gives nets, and a wire's word is 1 where one of them has it.
#![tactic(auto)]

mod table;
mod takes;
mod view;

pub use table::{ClaimTable, Claimed, Pass};
pub use takes::Takes;
pub use view::{ClaimLists, ClaimPart, ClaimView, Pair};
