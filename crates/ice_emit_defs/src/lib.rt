//! What is written for a placed and routed design. `specs/` says which rows are turned on and which bits of functions are set.
#![tactic(auto)]
