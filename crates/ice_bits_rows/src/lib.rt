//! Which rows of switches are sound, so that their values turn them on and nothing else, and which of these a route may
//! take.
#![tactic(auto)]

mod alone;
mod apart;
mod bundle;
mod first;
mod foreign;
mod index;
mod lists;
mod names;
mod owners;
mod plain;
mod rows;
mod sound;
mod uses;

pub use first::{first_sound, is_joined};
pub use index::Index;
pub use plain::is_plain;
pub use sound::{is_open, is_sound, is_taken, is_usable};
pub use uses::{WireUse, uses_of};
