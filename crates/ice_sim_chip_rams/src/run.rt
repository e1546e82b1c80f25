//! One step of a configured chip that block RAMs close.
ghost use Rattle.std.specs.Prelude.{◌≡◌, ◌+◌, ◌*◌, length};
ghost use Rattle.ice_sim.specs.ChipRuns.{with_state};
ghost use Rattle.ice_sim_chip_rams.specs.ClosedChips.{closed_step};

use ice_net::Drive;
use ice_ram::{Ram, join_levels, step_all};
use ice_sim::ChipRun;

/// One step: `levels` has the levels from outside, those of the first pads, which are so many, and behind them stand the pins of the
/// block RAMs; `joined` becomes the levels of all pads, and `drives` what the chip drives each of them with. It takes no memory.
pub(crate) fn step(
    run: &mut ChipRun<'_>,
    rams: &mut [Ram],
    first: usize,
    levels: &[bool],
    joined: &mut [bool],
    drives: &mut [Drive],
)
    requires pads { length run.old.bonded ≡ first + 74 * length rams.old }
    requires joined { length joined.old ≡ length run.old.bonded }
    requires drives { length drives.old ≡ length run.old.bonded }
    ensures run { run.new ≡ with_state run.old (closed_step run.old.parts run.old.configuration
        run.old.bonded first run.old.bonded first (run.old.state, rams.old) levels.now).0.0 }
    ensures rams { rams.new ≡ (closed_step run.old.parts run.old.configuration run.old.bonded first
        run.old.bonded first (run.old.state, rams.old) levels.now).0.1 }
    ensures drives { drives.new ≡ (closed_step run.old.parts run.old.configuration run.old.bonded
        first run.old.bonded first (run.old.state, rams.old) levels.now).1 }
{
    join_levels(first, levels, rams, joined);
    run.step(joined, drives);
    step_all(rams, drives, first);
}
