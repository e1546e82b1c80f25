//! Runs of configured chips, step by step.
ghost use Rattle.std.specs.Prelude.{◌≡◌, length, IfOk};
ghost use Rattle.ice_bits.specs.Configuration.{bits_of};
ghost use Rattle.ice_decode.specs.Meaning.{chip_start, chip_step};
ghost use Rattle.ice_decode.specs.Refusals.{IsCircuitOf};
ghost use Rattle.ice_sim.specs.ChipRuns.{with_state};

use crate::chip_plan::compile_chip;
use crate::stores::chip_stores;
use ice_base::NoMemory;
use ice_chip::{Chip, Pad};
use ice_decode::Circuit;
use ice_net::Drive;
use ice_sim_sweep::{Memory, SweepPlan, blanks, sweep};
use std::alloc::Global;
use std::marker::Model;

/// A run of a configured chip, seen at pads, which have levels too. Contracts see the chip, its bits, those pads and the state.
#[derive(Drop)]
pub struct ChipRun<'a> {
    chip: &'a Chip,
    circuit: &'a Circuit,
    pads: &'a [Pad],
    plan: SweepPlan,
    // What each store keeps: the flip-flops of logic cells, and the registers of pads.
    memories: Vec<Memory>,
    // The level of each slot in the last step.
    values: Vec<bool>,
}

impl<'a> Model for ChipRun<'a> {
    ghost use Rattle.ice_sim.specs.ChipRuns.{ChipRunData};
    ghost use Rattle.ice_sim.specs.ChipViews.{run_view, IsRunning};

    ghost Value = { ChipRunData };

    ghost view = { run_view };

    ghost invariant = { IsRunning };
}

impl<'a> ChipRun<'a> {
    /// A run before its first step: all flip-flops and registers are 0, and no clock has been seen. All memory that its steps need is taken
    /// here.
    ///
    /// # Errors
    /// Want of memory alone; more than 2^32 logic cells, pads, or levels to be kept, count as that.
    pub fn new(
        alloc: Global,
        chip: &'a Chip,
        circuit: &'a Circuit,
        pads: &'a [Pad],
    ) -> Result<ChipRun<'a>, NoMemory>
        requires { IsCircuitOf chip.now circuit.now.configuration circuit.now }
        ensures { IfOk result (λ run. run ≡ record {
          parts = chip.now;
          configuration = circuit.now.configuration;
          bonded = pads.now;
          state = chip_start chip.now;
        }) }
    {
        let stores = chip_stores(alloc, chip)?;
        let (plan, values) = compile_chip(alloc, chip, circuit, pads, &stores)?;
        let memories = blanks(alloc, stores.count()? as usize)?;
        Ok(ChipRun {
            chip,
            circuit,
            pads,
            plan,
            memories,
            values,
        })
    }

    /// One step: `levels` has the level of each of the pads, and `out` becomes what the chip drives each of them with. Its time
    /// is linear in the numbers of these pads and of the flip-flops, registers, tables and carries in use, and it takes no memory.
    pub fn step(&mut self, levels: &[bool], out: &mut [Drive])
        requires levels { length levels.now ≡ length self.old.bonded }
        requires out { length out.old ≡ length self.old.bonded }
        ensures run { self.new ≡ with_state self.old
            (chip_step self.old.parts (bits_of self.old.configuration) self.old.configuration.extras
            self.old.bonded self.old.bonded self.old.state levels.now).0 }
        ensures out { out.new ≡ (chip_step self.old.parts (bits_of self.old.configuration)
            self.old.configuration.extras self.old.bonded self.old.bonded
            self.old.state levels.now).1 }
    {
        sweep(
            &self.plan,
            levels,
            &mut self.memories,
            &mut self.values,
            out,
        );
    }
}
