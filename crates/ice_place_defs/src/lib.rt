//! Placed designs: where each root stands, which pins read it, and how long the nets are. `specs/` has the definitions, which
//! nets, bits and reports share.
#![tactic(auto)]

mod fed;
mod placed;

pub use fed::fed_root;
pub use placed::Placed;
