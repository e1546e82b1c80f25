//! Configured chips, compiled.
ghost use Rattle.std.specs.Prelude.{◌≡◌, ◌++◌, false, length, map, replicate, IfOk, OnOk};
ghost use Rattle.ice_chip.specs.IsRead.{IsChip};
ghost use Rattle.ice_bits.specs.Configuration.{bits_of};
ghost use Rattle.ice_decode.specs.Loops.{IsOrderOf};
ghost use Rattle.ice_decode.specs.Refusals.{IsCircuitOf};
ghost use Rattle.ice_decode.specs.Pads.{stores};
ghost use Rattle.ice_sim_sweep.specs.Arrays.{IsWired};
ghost use Rattle.ice_sim.specs.Layouts.{layout_of, laid, bare_layout, keepers_from, feeds_from, output_feed, taps_from};
ghost use Rattle.ice_sim.specs.ChipRuns.{IsCompiled};
ghost use Rattle.ice_sim.specs.ConfiguredChips.{AreStoresOf};

use crate::chip_flops::add_flops;
use crate::chip_registers::add_registers;
use crate::chip_taps::add_taps;
use crate::configured::ConfiguredChip;
use crate::layout::{constant_feeds, lay};
use crate::stores::{Stores, small};
use ice_base::NoMemory;
use ice_chip::{Chip, Pad};
use ice_decode::{Circuit, Point};
use ice_sim_sweep::{Feed, Keeper, SweepPlan, wired};
use std::alloc::Global;

// So many slots, all 0.
fn zeros(alloc: Global, count: usize) -> Result<Vec<u32>, NoMemory>
    ensures { IfOk result (λ slots. slots.items ≡ replicate count 0) }
{
    let slots = vec![in alloc; 0; count]?;
    Ok(slots)
}

// So many levels, all 0.
fn low_levels(alloc: Global, count: usize) -> Result<Vec<bool>, NoMemory>
    ensures { IfOk result (λ levels. levels.items ≡ replicate count false) }
{
    let levels = vec![in alloc; false; count]?;
    Ok(levels)
}

// The slots of the points of a chip, of which the order has each that the chip evaluates, and what feeds the slots.
fn lay_out(
    alloc: Global,
    configured: &ConfiguredChip<'_>,
    stores: &Stores,
    order: &[Point],
) -> Result<(Vec<u32>, Vec<Feed>), NoMemory>
    requires stores { AreStoresOf configured.now.parts stores.now }
    requires order { IsOrderOf configured.now.parts (bits_of configured.now.configuration)
        configured.now.configuration.extras order.now }
    ensures chip { OnOk result (IsChip configured.now.parts) }
    ensures layout { IfOk result (λ out.
        layout_of out.0.items out.1.items ≡ laid configured.now.parts
        (bits_of configured.now.configuration) configured.now.configuration.extras
        configured.now.bonded order.now (bare_layout configured.now.parts)) }
{
    let points = configured.chip().wires() as usize + stores.cells.len();
    let mut slots = zeros(alloc, points)?;
    let mut feeds = constant_feeds(alloc)?;
    lay(configured, order, &mut slots, &mut feeds)?;
    Ok((slots, feeds))
}

// The flip-flops and registers of a chip; what feeds the slots of their data is added.
fn keepers(
    alloc: Global,
    configured: &ConfiguredChip<'_>,
    slots: &[u32],
    all: &Stores,
    feeds: &mut Vec<Feed>,
) -> Result<Vec<Keeper>, NoMemory>
    requires { AreStoresOf configured.now.parts all.now }
    ensures feeds { OnOk result (feeds.new.items
        ≡ feeds.old.items ++ feeds_from configured.now.parts (bits_of configured.now.configuration)
        configured.now.bonded slots.now (length feeds.old.items) (stores configured.now.parts)) }
    ensures keepers { IfOk result (λ keepers.
        keepers.items ≡ keepers_from configured.now.parts (bits_of configured.now.configuration)
        configured.now.bonded slots.now 0 (length feeds.old.items) (stores configured.now.parts)) }
{
    let mut keepers = Vec::new(alloc);
    add_flops(configured, slots, &all.cells, feeds, &mut keepers)?;
    let first = small(all.cells.len())?;
    add_registers(configured, slots, first, &all.pads, feeds, &mut keepers)?;
    Ok(keepers)
}

// The plan of a chip whose slots have these feeds, and which keeps levels so; what feeds the slots of the pads is added.
fn plan_of(
    alloc: Global,
    configured: &ConfiguredChip<'_>,
    slots: &[u32],
    keepers: Vec<Keeper>,
    feeds: &mut Vec<Feed>,
) -> Result<SweepPlan, NoMemory>
    ensures feeds { OnOk result (feeds.new.items ≡ feeds.old.items
        ++ map (output_feed configured.now.parts (bits_of configured.now.configuration))
        configured.now.bonded) }
    ensures wired { IfOk result (IsWired feeds.new.items) }
    ensures keepers { IfOk result (λ plan. plan.keepers.items ≡ keepers.items) }
    ensures taps { IfOk result (λ plan.
        plan.taps.items ≡ taps_from configured.now.parts (bits_of configured.now.configuration)
        slots.now (length feeds.old.items) configured.now.bonded) }
{
    let mut taps = Vec::new(alloc);
    add_taps(configured, slots, feeds, &mut taps)?;
    wired(alloc, feeds, taps, keepers)
}

// The plan of a chip with the array for it.
fn compile_configured(
    alloc: Global,
    configured: &ConfiguredChip<'_>,
    stores: &Stores,
    order: &[Point],
) -> Result<(SweepPlan, Vec<bool>), NoMemory>
    requires stores { AreStoresOf configured.now.parts stores.now }
    requires order { IsOrderOf configured.now.parts (bits_of configured.now.configuration)
        configured.now.configuration.extras order.now }
    ensures { IfOk result (λ compiled.
        IsCompiled configured.now.parts (bits_of configured.now.configuration)
        configured.now.configuration.extras configured.now.bonded compiled.0 compiled.1.items) }
{
    let (slots, mut feeds) = lay_out(alloc, configured, stores, order)?;
    let keepers = keepers(alloc, configured, &slots, stores, &mut feeds)?;
    let plan = plan_of(alloc, configured, &slots, keepers, &mut feeds)?;
    let values = low_levels(alloc, feeds.len())?;
    Ok((plan, values))
}

/// The plan of a chip, of which is given what keeps levels, and the array for it, in which all is 0. It fails for want of memory alone;
/// more than 2^32 slots or stores count as that.
pub(crate) fn compile_chip(
    alloc: Global,
    chip: &Chip,
    circuit: &Circuit,
    pads: &[Pad],
    stores: &Stores,
) -> Result<(SweepPlan, Vec<bool>), NoMemory>
    requires stores { AreStoresOf chip.now stores.now }
    requires circuit { IsCircuitOf chip.now circuit.now.configuration circuit.now }
    ensures { IfOk result (λ compiled. IsCompiled chip.now (bits_of circuit.now.configuration)
        circuit.now.configuration.extras pads.now compiled.0 compiled.1.items) }
{
    let configured = ConfiguredChip::new(alloc, chip, circuit, pads, stores)?;
    compile_configured(alloc, &configured, stores, circuit.order())
}
