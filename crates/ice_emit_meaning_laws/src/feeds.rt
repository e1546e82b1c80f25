//! Whether globals of a chip feed each other.
ghost use Rattle.std.specs.Prelude.{◌≡◌, ◌<◌, ◌↔◌, IsTrue, IfSome, option_map};
ghost use Rattle.ice_emit_meaning_laws.specs.Feeds.{FeedsNoGlobal, IsRingless, feed_of, is_fed_by_global, is_global, some_fed_below};

use ice_base::WireNo;
use ice_chip::{Chip, fabout_name};
use ice_chip_laws::chip_is_lawful;
use ice_decode::{Role, role_of};

// Whether this is what a global is.
fn is_global(role: Role) -> bool
    ensures { result ≡ is_global role }
{
    matches!(role, Role::Global(_))
}

// The wire that feeds a global, in the tile that the database names for it.
fn feed_of(chip: &Chip, number: u8) -> Option<WireNo>
    ensures feed { option_map (λ w. w.0) result ≡ feed_of chip.now number }
    ensures below { IfSome result (λ w. w.0 < chip.now.wires) }
{
    chip_is_lawful(chip);
    match chip.global_of(number) {
        None => None,
        Some(tile) => chip.wire_named(tile, &fabout_name()),
    }
}

// Whether the wire that feeds a global is a global itself.
fn is_fed_by_global(chip: &Chip, number: u8) -> bool
    ensures { result ≡ is_fed_by_global chip.now number }
{
    match feed_of(chip, number) {
        None => false,
        Some(wire) => is_global(role_of(chip, wire)),
    }
}

// Whether one of the globals below this one is fed by a global.
fn some_fed_below(chip: &Chip, number: u8) -> bool
    ensures { result ≡ some_fed_below chip.now number }
{
    for lower in 0..number {
        if is_fed_by_global(chip, lower) {
            return true;
        }
    }
    false
}

/// Whether no wire that feeds a global of the chip is a global itself: whether a global's tile has a global's wire as its `fabout` is
/// looked up for each of the eight. If so, none feed each other in a ring. It takes no memory.
pub fn feeds_no_global(chip: &Chip) -> bool
    ensures feeds { IsTrue result ↔ FeedsNoGlobal chip.now }
    ensures ringless { IsTrue result → IsRingless chip.now }
{
    chip.is_chip();
    chip_is_lawful(chip);
    !some_fed_below(chip, 8)
}
