//! An index of a chip's groups: those into each wire, and the wires of each bit.
ghost use Rattle.std.specs.Prelude.{◌≡◌, ◌<◌, [], Some, replicate, IfNone, IfOk, IfSome};
ghost use Rattle.std.specs.Option.{ForNone, ForSome};
ghost use Rattle.ice_bits_rows.specs.Bundles.{groups_into, is_of_function};
ghost use Rattle.ice_bits_rows.specs.ForeignBits.{AreOfForeign};
ghost use Rattle.ice_bits_rows.specs.Lists.{views, lists_of, listed};
ghost use Rattle.ice_bits_rows.specs.Apart.{ShareNothing};
ghost use Rattle.ice_bits_rows.specs.Owners.{AreOwners};

use crate::apart::are_apart;
use crate::bundle::has_bit;
use crate::foreign::{ForeignBits, foreign_bits, foreign_of};
use crate::lists::groups_by_wire;
use crate::owners::{Owners, owners_of};
use ice_base::{BitAt, NoMemory, WireNo};
use ice_chip::{Chip, Group, TileKind};
use std::alloc::Global;

/// A chip whose groups are found at once by the wire into which they lead, and where groups share bits, the wires by these.
#[derive(Drop)]
pub struct Index<'a> {
    /// The chip.
    pub chip: &'a Chip,
    // The groups into each wire, in order.
    into: Vec<Vec<&'a Group>>,
    // The wires of each bit; none where no two groups of a tile have a bit in common, and none has one of a foreign function.
    owners: Option<Owners>,
    // The bits of foreign functions.
    foreign: ForeignBits,
    ghost are_listed: { lists_of into.items
        ≡ listed (replicate chip.now.wires []) chip.now.groups },
    ghost are_owners: { ForSome owners (AreOwners chip.now.groups) },
    ghost share_nothing: { ForNone owners (ShareNothing chip.now) },
    ghost are_foreign: { AreOfForeign chip.now.functions foreign },
}

// The wires of each bit, where groups share bits.
fn shared_owners(
    alloc: Global,
    chip: &Chip,
    foreign: &ForeignBits,
) -> Result<Option<Owners>, NoMemory>
    requires { AreOfForeign chip.now.functions foreign.now }
    ensures owners { IfOk result (λ owners. ForSome owners (AreOwners chip.now.groups)) }
    ensures nothing { IfOk result (λ owners. ForNone owners (ShareNothing chip.now)) }
{
    if are_apart(alloc, chip, foreign)? {
        return Ok(None);
    }
    chip.is_chip();
    let owners = owners_of(alloc, chip.groups())?;
    Ok(Some(owners))
}

impl<'a> Index<'a> {
    /// The index of a chip's groups.
    ///
    /// # Errors
    /// Want of memory alone.
    pub fn new(alloc: Global, chip: &'a Chip) -> Result<Index<'a>, NoMemory>
        ensures { IfOk result (λ index. index.chip.now ≡ chip.now) }
    {
        let wires = chip.wires();
        let groups = chip.groups();
        let into = groups_by_wire(alloc, groups, wires)?;
        let foreign = foreign_bits(alloc, chip.functions())?;
        let owners = shared_owners(alloc, chip, &foreign)?;
        Ok(Index {
            chip,
            into,
            owners,
            foreign,
        })
    }

    // The list of the groups into a wire. The wire is one of the chip.
    #[tactic(auto, using(crate::proofs::Listing::list_within, crate::proofs::Listing::groups_found))]
    fn list_of<'b>(&'b self, wire: WireNo) -> &'b [&'a Group]
        requires { wire.0 < self.now.chip.now.wires }
        ensures { views result.now ≡ groups_into self.now.chip.now.groups wire.0 }
    {
        &self.into[wire.0 as usize]
    }

    /// The groups into a wire, in order.
    pub fn groups_into<'b>(&'b self, wire: WireNo) -> &'b [&'a Group]
        ensures { views result.now ≡ groups_into self.now.chip.now.groups wire.0 }
    {
        if wire.0 >= self.chip.wires() {
            return &[];
        }
        self.list_of(wire)
    }

    /// The wires of each bit; none where no two groups of a tile have a bit in common, and none has one of a foreign function.
    pub fn owners(&self) -> Option<&Owners>
        ensures owners { IfSome result (λ owners. AreOwners self.now.chip.now.groups owners.now) }
        ensures nothing { IfNone result (ShareNothing self.now.chip.now) }
    {
        self.owners.as_ref()
    }

    /// Whether a foreign function of a kind of tile has the bit. Logic tiles alone have no foreign functions.
    pub fn is_foreign(&self, kind: TileKind, bit: BitAt) -> bool
        ensures { result ≡ is_of_function self.now.chip.now.functions (Some kind) bit }
    {
        has_bit(foreign_of(self.chip, &self.foreign, kind), bit)
    }
}
