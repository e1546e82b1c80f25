//! What the bits of a placed design set: its cells, clusters and ports say each slot, tile and pad, and its block RAMs each site.
#![tactic(auto)]

pub mod laws;
