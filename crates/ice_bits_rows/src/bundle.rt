//! Bundles: the groups of a tile into a wire.
ghost use Rattle.std.specs.Prelude.{◌≡◌};
ghost use Rattle.std.specs.List.{list_any};
ghost use Rattle.ice_chip.specs.Lookups.{kind_at};
ghost use Rattle.ice_chip.specs.Views.{group_view};
ghost use Rattle.ice_bits_rows.specs.Bundles.{has_bit, is_of_function, is_of_other, is_shared, shares_bit, is_private};
ghost use Rattle.ice_bits_rows.specs.Lists.{views};
ghost use Rattle.ice_bits_rows.specs.Owners.{AreOwners, IsBlockOf};
ghost use Rattle.ice_bits_rows.specs.Alone.{in_tile};

use crate::index::Index;
use crate::owners::{Owner, Owners, block_of, is_other, owner_in};
use ice_base::{BitAt, TileAt, WireNo};
use ice_chip::{Group, TileKind};

// Whether the bit is among these.
pub fn has_bit(bits: &[BitAt], bit: BitAt) -> bool
    ensures { result ≡ has_bit bits.now bit }
{
    for own in bits {
        if *own == bit {
            return true;
        }
    }
    false
}

// Whether a foreign function of the tile's kind has the bit.
fn is_of_function(index: &Index, kind: Option<TileKind>, bit: BitAt) -> bool
    ensures { result ≡ is_of_function index.now.chip.now.functions kind bit }
{
    match kind {
        None => false,
        Some(kind) => index.is_foreign(kind, bit),
    }
}

// Whether the bit is in another bundle of the tile, by the block of that.
fn is_of_other(
    index: &Index,
    tile: TileAt,
    block: &[Option<Owner>],
    wire: WireNo,
    bit: BitAt,
) -> bool
    requires { IsBlockOf index.now.chip.now.groups tile block.now }
    ensures { result ≡ is_of_other index.now.chip.now.groups tile wire.0 bit }
{
    let (_index, _tile) = (index, tile);
    is_other(owner_in(block, bit), wire)
}

// Whether the bit is in another bundle of the tile or in a foreign function of its kind, by the kind and the block of the tile.
fn is_shared(
    index: &Index,
    tile: TileAt,
    kind: Option<TileKind>,
    block: &[Option<Owner>],
    wire: WireNo,
    bit: BitAt,
) -> bool
    requires kind { kind ≡ kind_at index.now.chip.now tile }
    requires block { IsBlockOf index.now.chip.now.groups tile block.now }
    ensures { result ≡ is_shared index.now.chip.now tile wire.0 bit }
{
    is_of_other(index, tile, block, wire, bit) || is_of_function(index, kind, bit)
}

// Whether the group has such a bit.
fn shares_bit(index: &Index, owners: &Owners, group: &Group) -> bool
    requires { AreOwners index.now.chip.now.groups owners.now }
    ensures { result ≡ shares_bit index.now.chip.now (group_view group.now) }
{
    let kind = index.chip.kind_at(group.tile);
    let block = block_of(owners, group.tile);
    for bit in group.bits.as_slice() {
        if is_shared(index, group.tile, kind, block, group.wire, *bit) {
            return true;
        }
    }
    false
}

// Whether a group of the tile among these has such a bit.
fn some_shares(index: &Index, owners: &Owners, groups: &[&Group], tile: TileAt) -> bool
    requires { AreOwners index.now.chip.now.groups owners.now }
    ensures { result ≡ list_any (shares_bit index.now.chip.now) (in_tile tile (views groups.now)) }
{
    for group in groups {
        if group.tile == tile {
            if shares_bit(index, owners, group) {
                return true;
            }
        }
    }
    false
}

/// Whether the bundle of a tile and a wire is private: none of its bits is in another bundle of the tile or in a
/// foreign function of its kind.
pub fn is_private(index: &Index, tile: TileAt, wire: WireNo) -> bool
    ensures { result ≡ is_private index.now.chip.now tile wire.0 }
{
    match index.owners() {
        None => true,
        Some(owners) => !some_shares(index, owners, index.groups_into(wire), tile),
    }
}
