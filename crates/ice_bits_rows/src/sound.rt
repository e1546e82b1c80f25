//! Rows that are sound, and those of them that a route may take.
ghost use Rattle.std.specs.Prelude.{◌≡◌, ◌<◌, ◌&&◌, true};
ghost use Rattle.ice_chip.specs.Views.{row_view, group_view};
ghost use Rattle.ice_bits_rows.specs.Bundles.{is_private};
ghost use Rattle.ice_bits_rows.specs.Sound.{is_alone, is_sound};
ghost use Rattle.ice_bits_rows.specs.Usable.{is_open, is_taken, is_usable};
ghost use Rattle.ice_bits_rows.specs.Uses.{AreUses};

use crate::alone;
use crate::bundle::is_private;
use crate::index::Index;
use crate::names::{has_strange_name, may_enter, may_leave};
use crate::uses::{WireUse, is_source, is_target};
use ice_chip::{Group, Row};

// Whether the row of a number is the one row of its bundle that is on under its values.
fn is_alone(index: &Index, group: &Group, number: u32, row: &Row) -> bool
    ensures { result
        ≡ is_alone index.now.chip.now.groups (group_view group.now) number (row_view row.now) }
{
    let groups = index.groups_into(group.wire);
    alone::is_alone(groups, group, number as usize, row)
}

// Whether the row of a number is the one row of its bundle that is on under its values. Where its group is plain it is.
fn is_alone_in(index: &Index, group: &Group, plain: bool, number: u32, row: &Row) -> bool
    requires plain { plain ≡ true
        → is_alone index.now.chip.now.groups (group_view group.now) number (row_view row.now)
        ≡ true }
    ensures { result
        ≡ is_alone index.now.chip.now.groups (group_view group.now) number (row_view row.now) }
{
    plain || is_alone(index, group, number, row)
}

/// Whether the row of a group is sound: no other bundle of its tile and no foreign function has a bit of its bundle, its
/// values turn it on alone there, and its source has no name of a memory that is no pin. The number is that of the row.
pub fn is_sound(index: &Index, group: &Group, number: u32, row: &Row) -> bool
    requires wire { group.now.wire.0 < index.now.chip.now.wires }
    requires source { row.now.source.0 < index.now.chip.now.wires }
    ensures { result
        ≡ is_sound index.now.chip.now (group_view group.now) number (row_view row.now) }
{
    is_private(index, group.tile, group.wire)
        && !has_strange_name(index.chip, row.source)
        && is_alone(index, group, number, row)
}

/// Whether usable rows may stand in the group: its bundle is private, and a route may enter its wire, by what was noted of all
/// wires.
pub fn is_open(index: &Index, uses: &[WireUse], group: &Group) -> bool
    requires uses { AreUses index.now.chip.now uses.now }
    requires wire { group.now.wire.0 < index.now.chip.now.wires }
    ensures { result ≡ is_open index.now.chip.now (group_view group.now) }
{
    is_private(index, group.tile, group.wire) && is_target(index.chip, uses, group.wire)
}

/// Whether the row of an open group is usable: its values turn it on alone in its bundle, its source has no name of a memory
/// that is no pin, and a route may leave that, by what was noted of all wires. The number is that of the row. The group may be
/// known to be plain, so that each of its rows is alone.
#[tactic(auto, using(crate::proofs::WireUses::taken_by_source))]
pub fn is_taken(
    index: &Index,
    uses: &[WireUse],
    group: &Group,
    plain: bool,
    number: u32,
    row: &Row,
) -> bool
    requires uses { AreUses index.now.chip.now uses.now }
    requires source { row.now.source.0 < index.now.chip.now.wires }
    requires plain { plain ≡ true
        → is_alone index.now.chip.now.groups (group_view group.now) number (row_view row.now)
        ≡ true }
    ensures { result
        ≡ is_taken index.now.chip.now (group_view group.now) number (row_view row.now) }
{
    is_source(index.chip, uses, row.source) && is_alone_in(index, group, plain, number, row)
}

/// Whether the row of a group is usable: it is sound, and a route may leave its source and enter its wire. The number is
/// that of the row.
pub fn is_usable(index: &Index, group: &Group, number: u32, row: &Row) -> bool
    requires wire { group.now.wire.0 < index.now.chip.now.wires }
    requires source { row.now.source.0 < index.now.chip.now.wires }
    ensures { result
        ≡ is_usable index.now.chip.now (group_view group.now) number (row_view row.now) }
{
    is_sound(index, group, number, row)
        && may_leave(index.chip, row.source)
        && may_enter(index.chip, group.wire)
}
