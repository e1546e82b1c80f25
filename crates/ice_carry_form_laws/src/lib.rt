//! What a packed design keeps to, before its runs are made and afterwards.
#![tactic(auto)]

pub mod laws;
