//! The flow: what the words after the program's name ask for is done.
#![tactic(auto)]

mod top_call;

pub use ice_flow_frame::{Cause, Done, FileRole};
pub use top_call::run;
