//! Texts of sample chips and netlists.
use ice_sample::{sample_chip, sample_net};
use std::alloc::Global;
use std::process::Abort;

/// The sample chip of 4 by 5 tiles, which has twenty pads, and two stretches of three sites.
pub fn small_chip(rt: &impl Abort, alloc: Global) -> Vec<u8> {
    let mut text = Vec::new(alloc);
    sample_chip(alloc, 4, 5, &mut text).expect(rt, "memory");
    text
}

/// The sample chip of 14 by 18 tiles.
pub fn large_chip(rt: &impl Abort, alloc: Global) -> Vec<u8> {
    let mut text = Vec::new(alloc);
    sample_chip(alloc, 14, 18, &mut text).expect(rt, "memory");
    text
}

/// The sample netlist 7 of 96 cells.
pub fn seventh_netlist(rt: &impl Abort, alloc: Global) -> Vec<u8> {
    let mut text = Vec::new(alloc);
    sample_net(7, 96, &mut text).expect(rt, "memory");
    text
}
