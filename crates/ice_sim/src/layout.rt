//! The slots of the points of a configured chip, and what feeds them.
ghost use Rattle.std.specs.Prelude.{◌≡◌, ◌<◌, ◌++◌, ◌∷◌, [], length, All, IfOk, OnOk};
ghost use Rattle.ice_bits.specs.Configuration.{bits_of};
ghost use Rattle.ice_decode.specs.Points.{HasWire};
ghost use Rattle.ice_sim.specs.ChipSlots.{number, point_slot};
ghost use Rattle.ice_sim.specs.Layouts.{layout_of, placed, laid, constant_feeds, IsPointBelow};

use crate::configured::ConfiguredChip;
use crate::point_slots::point_slot;
use crate::points::PointSlot;
use crate::stores::small;
use ice_base::NoMemory;
use ice_decode::Point;
use ice_sim_sweep::{Feed, Gate};
use std::alloc::Global;

// The table of four inputs that is always 1.
const ONES: u16 = 0xffff;

/// What feeds slot 0, which is always 0, and slot 1, which is always 1.
pub(crate) fn constant_feeds(alloc: Global) -> Result<Vec<Feed>, NoMemory>
    ensures { IfOk result (λ feeds. feeds.items ≡ constant_feeds) }
{
    let mut feeds = Vec::new(alloc);
    feeds.push(Feed::Nothing)?;
    feeds.push(Feed::Made(Gate {
        table: ONES,
        first: 0,
        second: 0,
        third: 0,
        fourth: 0,
        out: 1,
    }))?;
    Ok(feeds)
}

// Gives the point of a number its slot.
fn place(
    slot: PointSlot,
    number: usize,
    next: u32,
    slots: &mut [u32],
    feeds: &mut Vec<Feed>,
) -> Result<(), NoMemory>
    requires number { number < length slots.old }
    requires next { next ≡ length feeds.old.items }
    ensures { OnOk result (layout_of slots.new feeds.new.items
        ≡ placed slot number (layout_of slots.old feeds.old.items)) }
{
    match slot {
        PointSlot::Shared(shared) => slots[number] = shared,
        PointSlot::Own(feed) => {
            feeds.push(feed)?;
            slots[number] = next;
        }
    }
    Ok(())
}

// Gives one more point its slot.
fn lay_point(
    configured: &ConfiguredChip<'_>,
    point: Point,
    slots: &mut [u32],
    feeds: &mut Vec<Feed>,
) -> Result<(), NoMemory>
    requires { IsPointBelow configured.now.parts (length slots.old) point }
    ensures { OnOk result (layout_of slots.new feeds.new.items ≡ placed
        (point_slot configured.now.parts (bits_of configured.now.configuration)
        configured.now.configuration.extras configured.now.bonded slots.old
        (length feeds.old.items) point)
        (number configured.now.parts point) (layout_of slots.old feeds.old.items)) }
{
    let next = small(feeds.len())?;
    let slot = point_slot(configured, slots, next, point);
    place(slot, configured.number(point), next, slots, feeds)
}

/// Gives these points their slots, one after another. It fails for want of memory alone; more than 2^32 slots count as that.
pub(crate) fn lay(
    configured: &ConfiguredChip<'_>,
    order: &[Point],
    slots: &mut [u32],
    feeds: &mut Vec<Feed>,
) -> Result<(), NoMemory>
    requires { All (IsPointBelow configured.now.parts (length slots.old)) order.now }
    ensures { OnOk result (layout_of slots.new feeds.new.items ≡ laid configured.now.parts
        (bits_of configured.now.configuration) configured.now.configuration.extras
        configured.now.bonded order.now (layout_of slots.old feeds.old.items)) }
{
    for point in order {
        lay_point(configured, *point, slots, feeds)?;
    }
    Ok(())
}
