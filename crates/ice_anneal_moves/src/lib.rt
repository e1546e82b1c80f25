//! What may move while an arrangement is looked for, cells and units of clusters, and what each move does to the wires. Nothing is claimed of
//! it.
#![tactic(auto)]

mod bundles;
mod classes;
mod nets;
mod signals;
mod state;
mod units;

pub use bundles::Bundles;
pub use classes::{Mover, Movers, movers_of};
pub use nets::{CellNets, nets_of};
pub use signals::Signals;
pub use state::State;
pub use units::{MoveUnit, Units};
