//! What configuration bits make of a chip: which rows of switches are on, what drives each wire, what each wire and each carry reads
//! and makes of it, what the pads show step by step; and what the circuit in bits without a fault is, and each fault.
#![tactic(auto)]

mod buffers;
mod circuit;
mod direct;
mod driver;
mod fault;
/// What is proved of the meaning of bits.
pub mod laws;
mod numbering;
mod pads;
mod point;
mod rams_in_use;
mod reads;
mod role;
mod settings;
mod tiles;
mod wire_roles;
mod wires;

pub use buffers::{global_at, passes};
pub use circuit::Circuit;
pub use driver::{Driver, Switch};
pub use fault::DecodeFault;
pub use numbering::Numbering;
pub use pads::{has_input_register, has_output_register, is_enabled, pin_type};
pub use point::Point;
pub use rams_in_use::{is_given, rams};
pub use reads::{add_reads, at_pin};
pub use role::Role;
pub use settings::{cell_bit, has_carry, has_flop, reset_by, setting};
pub use tiles::logic_tiles;
pub use wire_roles::role_of;
pub use wires::Wires;
