//! Laws of the netlists that texts say.
#![tactic(auto)]

mod laws;

pub use laws::{
    netlist_texts_say_netlists, read_names_are_known, texts_name_once, texts_say_closed_netlists,
    written_shows_the_same,
};
