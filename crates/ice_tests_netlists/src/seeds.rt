//! Placements and ranks by seeds.
use crate::asked::{Asked, expect};
use crate::texts::{large_chip, seventh_netlist};

// The sample netlist 7 of 96 cells on the sample chip of 14 by 18 tiles.
#[test]
fn seeds_give_different_placements(rt: HostRuntime) {
    let chip = large_chip(&rt, rt.alloc());
    let text = seventh_netlist(&rt, rt.alloc());
    expect(&rt, rt.alloc(), &chip, &text, Asked::Seeds(8, 1));
}

// The same netlist: 24 of its cells have a flip-flop, all of one control set.
#[test]
fn seeds_give_different_ranks(rt: HostRuntime) {
    let chip = large_chip(&rt, rt.alloc());
    let text = seventh_netlist(&rt, rt.alloc());
    expect(&rt, rt.alloc(), &chip, &text, Asked::Ranks);
}
