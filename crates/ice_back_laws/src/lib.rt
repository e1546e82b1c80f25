//! The netlist of a configured chip: its definition and its laws. It is made in `ice_back`.
#![tactic(auto)]

mod laws;
mod root;

pub use laws::{
    netlist_has_no_loop, netlist_is_connected, netlist_is_sound, netlist_shows_what_bits_show,
    points_have_their_roots_levels,
};
pub use root::LevelRoot;
