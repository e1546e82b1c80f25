//! What the workers of a raising share: the histories of wires, which are raised block by block.
#![tactic(auto)]

mod histories;
mod table;
mod view;

pub use histories::Histories;
pub use table::{HistoryHand, HistoryRule, HistoryWords};
pub use view::{Bump, HistoryPart, HistoryView, OldHistories};
