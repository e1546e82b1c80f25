//! The logic sites of a chip, and the stretches of linked sites in which a run of carries may stand.
#![tactic(auto)]

mod laws;
mod ordered;
mod site;
mod sites;
mod stretches;

pub use laws::clusters_stand_on_sites;
pub use sites::{Sites, Stretch, sites_by, sites_of};
