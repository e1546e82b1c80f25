//! Sample netlists, which another program made besides with a generator of its own.
use crate::claims::expect_that;
use crate::sample_chips::count_of;
use ice_sample::sample_net;
use std::alloc::Global;
use std::process::Abort;

// The netlist of number 7 with four cells, behind a line that was there.
const FOUR_CELLS: &[u8] = b"# old
.model sample
.inputs clk i0 i1 i2 i3 i4 i5 i6 i7
.outputs o0 o1 o2 o3 o4 o5 o6 o7
.gate SB_GB USER_SIGNAL_TO_GLOBAL_BUFFER=clk GLOBAL_BUFFER_OUTPUT=clk_g
.gate SB_LUT4 I0=i6 I1=i1 I2=i2 I3=i3 O=n0
.param LUT_INIT 0011101110111100
.gate SB_LUT4 I0=i5 I1=i3 I2=i1 I3=i0 O=n1
.param LUT_INIT 1011000100001000
.gate SB_LUT4 I0=n1 I1=i3 I2=i3 I3=i6 O=n2
.param LUT_INIT 1010100110001010
.gate SB_LUT4 I0=i4 I1=n1 I2=n0 I3=i6 O=n3
.param LUT_INIT 1000001010010110
.gate SB_DFF C=clk_g D=n3 Q=q3
.names i4 o0
1 1
.names i5 o1
1 1
.names i6 o2
1 1
.names i7 o3
1 1
.names n0 o4
1 1
.names n1 o5
1 1
.names n2 o6
1 1
.names q3 o7
1 1
.end
";

fn a_netlist_is_appended(rt: &impl Abort, alloc: Global) {
    let mut out = Vec::from_slice(alloc, b"# old\n").expect(rt, "memory");
    sample_net(7, 4, &mut out).expect(rt, "memory");
    expect_that(rt, out.as_slice() == FOUR_CELLS, b"appended");
}

fn every_fourth_cell_has_a_flip_flop(rt: &impl Abort, alloc: Global) {
    let mut out = Vec::new(alloc);
    sample_net(7, 96, &mut out).expect(rt, "memory");
    let tables = count_of(&out, b".gate SB_LUT4 ");
    expect_that(rt, tables == 96, b"tables");
    let flip_flops = count_of(&out, b".gate SB_DFF ");
    expect_that(rt, flip_flops == 24, b"flip-flops");
}

#[test]
fn sample_netlists_have_their_lines(rt: HostRuntime) {
    a_netlist_is_appended(&rt, rt.alloc());
    every_fourth_cell_has_a_flip_flop(&rt, rt.alloc());
}
