//! What runs mean: a design shows with its runs what it showed without.
#![tactic(auto)]

pub mod laws;
