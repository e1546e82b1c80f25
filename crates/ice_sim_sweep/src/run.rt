//! Runs of netlists, step by step.
ghost use Rattle.std.specs.Prelude.{◌≡◌, ◌+◌, ◌<◌, ◌≤◌, ◌^◌, ◌++◌, ◌∷◌, [], true, false, length, replicate, IfOk};
ghost use Rattle.ice_net.specs.Meaning.{start, step};
ghost use Rattle.ice_sim_sweep.specs.Sweeps.{blank};

use crate::parts::Memory;
use crate::plan::{SweepPlan, compile};
use crate::sweeping::sweep;
use ice_base::NoMemory;
use ice_check::Sound;
use ice_net::Drive;
use std::alloc::Global;
use std::marker::Model;

/// A run of a sound netlist. Contracts see the netlist and its state.
#[derive(Drop)]
pub struct NetRun<'a> {
    sound: &'a Sound,
    plan: SweepPlan,
    // What each cell keeps.
    memories: Vec<Memory>,
    // The level of each signal in the last step, then 0 and 1.
    values: Vec<bool>,
}

impl<'a> Model for NetRun<'a> {
    ghost use Rattle.ice_net.specs.NetlistData.{NetlistData};
    ghost use Rattle.ice_net.specs.Meaning.{State};
    ghost use Rattle.ice_sim_sweep.specs.Plans.{IsRun, state_of};

    ghost Value = { NetlistData × State };

    ghost view = { λ r. (r.sound.now, state_of r.memories.items) };

    ghost invariant = { λ r. IsRun r.sound.now r.plan r.memories.items r.values.items };
}

/// What so many cells keep at the start: nothing, and flip-flops 0.
pub fn blanks(alloc: Global, cells: usize) -> Result<Vec<Memory>, NoMemory>
    ensures { IfOk result (λ memories. memories.items ≡ replicate cells blank) }
{
    let blank = Memory {
        kept: false,
        clock: None,
    };
    let memories = vec![in alloc; blank; cells]?;
    Ok(memories)
}

// The array for so many signals.
fn array(alloc: Global, signals: u32) -> Result<Vec<bool>, NoMemory>
    requires { signals < 2 ^ 30 }
    ensures { IfOk result (λ values. values.items ≡ replicate (signals + 1) false ++ true ∷ []) }
{
    let mut values = vec![in alloc; false; signals as usize + 1]?;
    values.push(true)?;
    Ok(values)
}

impl<'a> NetRun<'a> {
    /// A run before its first step: all flip-flops are 0, and no clock has been seen. All memory that its steps need is taken here.
    pub fn new(alloc: Global, sound: &'a Sound) -> Result<NetRun<'a>, NoMemory>
        ensures { IfOk result (λ run. run ≡ (sound.now, start sound.now)) }
    {
        let netlist = sound.netlist();
        let plan = compile(
            alloc,
            netlist,
            sound.drivers(),
            sound.buffers(),
            sound.signal_order(),
        )?;
        let memories = blanks(alloc, netlist.cells().len())?;
        let values = array(alloc, netlist.signals())?;
        Ok(NetRun {
            sound,
            plan,
            memories,
            values,
        })
    }

    /// One step: `levels` has the level of each port's pad, and `out` becomes what each port drives. Its time is linear in the
    /// numbers of signals, cells and ports, and it takes no memory.
    pub fn step(&mut self, levels: &[bool], out: &mut [Drive])
        requires levels { length levels.now ≡ length self.old.0.ports }
        requires out { length out.old ≡ length self.old.0.ports }
        ensures run { self.new ≡ (self.old.0, (step self.old.0 self.old.1 levels.now).0) }
        ensures out { out.new ≡ (step self.old.0 self.old.1 levels.now).1 }
    {
        sweep(
            &self.plan,
            levels,
            &mut self.memories,
            &mut self.values,
            out,
        );
    }
}
