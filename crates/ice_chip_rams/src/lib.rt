//! Where a chip has block RAMs, and their pins as pads.
#![tactic(auto)]

mod ram_site;
mod site;

pub use ram_site::RamSite;
pub use site::{PINS, pin_at, ram_pin, ram_tile, site_at, sites};
