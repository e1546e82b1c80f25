//! The groups of switches into each wire.
ghost use Rattle.std.specs.Prelude.{◌≡◌, ◌<◌, [], length, replicate, All, map, IfOk, OnOk};
ghost use Rattle.ice_chip.specs.IsRead.{HasWiresBelow};
ghost use Rattle.ice_chip.specs.Views.{group_view};
ghost use Rattle.ice_bits_rows.specs.Lists.{lists_of, with_listed, listed};

use ice_base::NoMemory;
use ice_chip::Group;
use std::alloc::Global;

// This many empty lists.
fn empty_lists<'a>(alloc: Global, wires: u32) -> Result<Vec<Vec<&'a Group>>, NoMemory>
    ensures { IfOk result (λ lists. lists_of lists.items ≡ replicate wires []) }
{
    let mut lists = Vec::with_capacity(alloc, wires as usize)?;
    for _wire in 0..wires {
        lists.push(Vec::new(alloc))?;
    }
    Ok(lists)
}

// Puts a group at the end of the list of its wire.
fn list_group<'a>(lists: &mut [Vec<&'a Group>], group: &'a Group) -> Result<(), NoMemory>
    requires { group.now.wire.0 < length lists.old }
    ensures { OnOk result
        (lists_of lists.new ≡ with_listed (lists_of lists.old) (group_view group.now)) }
{
    let list = &mut lists[group.wire.0 as usize];
    list.push(group)?;
    Ok(())
}

/// The groups into each wire, in order. The wires of the groups are below the number of the wires.
#[tactic(auto, using(crate::proofs::Listing::wire_below))]
pub fn groups_by_wire<'a>(
    alloc: Global,
    groups: &'a [Group],
    wires: u32,
) -> Result<Vec<Vec<&'a Group>>, NoMemory>
    requires { All (HasWiresBelow wires) (map group_view groups.now) }
    ensures { IfOk result (λ lists.
        lists_of lists.items ≡ listed (replicate wires []) (map group_view groups.now)) }
{
    let mut lists = empty_lists(alloc, wires)?;
    for group in groups {
        list_group(&mut lists, group)?;
    }
    Ok(lists)
}
