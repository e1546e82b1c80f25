//! What texts of bits say, without the steps of their reader.
#![tactic(auto)]

pub mod laws;
