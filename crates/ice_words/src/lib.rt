//! What the workers of a round share: words that count, for each wire, the routes that hold it.
#![tactic(auto)]

mod counts;
pub mod laws;
mod table;
mod view;

pub use counts::{Counts, Tally};
pub use table::{Counted, Hand, Words};
pub use view::{Claim, Opening, Part, View};
