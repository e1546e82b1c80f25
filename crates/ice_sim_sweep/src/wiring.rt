//! Plans of arrays of slots.
ghost use Rattle.std.specs.Prelude.{◌≡◌, ◌++◌, [], IfOk, OnOk};
ghost use Rattle.ice_sim_sweep.specs.Arrays.{IsWired};

use crate::parts::{Feed, Keeper, Tap};
use crate::plan::{SweepPlan, add};
use ice_base::NoMemory;
use std::alloc::Global;

/// The plan of an array whose slots have these feeds.
pub fn wired(
    alloc: Global,
    feeds: &[Feed],
    taps: Vec<Tap>,
    keepers: Vec<Keeper>,
) -> Result<SweepPlan, NoMemory>
    ensures wired { IfOk result (IsWired feeds.now) }
    ensures taps { IfOk result (λ plan. plan.taps.items ≡ taps.items) }
    ensures keepers { IfOk result (λ plan. plan.keepers.items ≡ keepers.items) }
{
    let mut pads = Vec::new(alloc);
    let mut keeps = Vec::new(alloc);
    let mut gates = Vec::new(alloc);
    for (slot, feed) in feeds.iter().enumerate() {
        add(&mut pads, &mut keeps, &mut gates, slot, *feed)?;
    }
    Ok(SweepPlan {
        pads,
        keeps,
        gates,
        taps,
        keepers,
    })
}
