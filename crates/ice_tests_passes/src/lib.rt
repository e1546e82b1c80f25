//! What stands between the passes of a netlist: the packed design, its clusters, and with pin constraints pads and globals, the first
//! placement, its wire length and its nets, or the first refusal; then what routing says of that placement, and the text of the bits. Chips
//! have a package of the name `sample`.
#![tactic(auto)]

mod design;
mod faults;
mod layout;
mod netlists;
mod passes;
mod placed;
mod routes;
mod text;

pub use netlists::{show_netlist, show_pinned_netlist};
pub use text::Text;
