//! The simulators of netlists and of configured chips.
#![tactic(auto)]

mod chip_flops;
mod chip_plan;
mod chip_registers;
mod chip_run;
mod chip_taps;
mod configured;
mod gates;
mod layout;
mod point_slots;
mod points;
mod stores;

pub use chip_run::ChipRun;
pub use ice_net::Drive;
pub use ice_sim_sweep::{NetRun, play};
