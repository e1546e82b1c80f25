//! Contended wires.
ghost use Rattle.std.specs.Prelude.{◌≡◌, option_map};
ghost use Rattle.ice_decode.specs.Tables.{contended_among};

use ice_base::{RowNo, WireNo};
use ice_decode::Driver;

/// The least wire into which two rows are on, with its first two, by what drives each wire. It takes no memory.
#[tactic(auto, using(ice_decode::proofs::FirstOf::first_here, ice_decode::proofs::FirstOf::first_next, ice_decode::proofs::FirstOf::first_none))]
pub(crate) fn contention(drivers: &[Driver]) -> Option<(usize, RowNo, RowNo)>
    ensures { option_map (λ found. (found.0, found.1.0, found.2.0)) result
        ≡ contended_among drivers.now }
{
    for wire in 0..drivers.len() {
        if let Driver::Several(first, second) = drivers[wire] {
            return Some((wire, first, second));
        }
    }
    None
}
