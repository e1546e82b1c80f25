//! The pads and pull-ups of all ports: those of the constraints, and else the first free pads that have the wires.
ghost use Rattle.std.specs.Prelude.{◌≡◌, ◌<◌, false, find, take, length, slice_get, OnOk, IfSome};
ghost use Rattle.std.specs.List.{list_any};
ghost use Rattle.std.specs.Option.{option_and_then};
ghost use Rattle.ice_pads.specs.Closings.{with_first};
ghost use Rattle.ice_pads.specs.Ports.{is_free, is_fit, by_free, next_chosen, with_next, all_chosen};
ghost use Rattle.ice_pads.specs.Tables.{AreKept, AreTaken, AreDone};
ghost use Rattle.ice_pads.specs.Answers.{Extends};

use crate::outer::{Outer, outer_name};
use crate::progress::{Progress, kind_of};
use crate::tables::Tables;
use crate::{Chosen, PinFault, Want, suits};
use ice_chip::{Chip, Pad};
use std::alloc::Global;

// Whether no constraint gives the pad, and no port before has it.
fn is_free(tables: &Tables, progress: &Progress, pad: Pad) -> bool
    requires kept { AreKept tables.now }
    requires taken { AreTaken progress.now.chosen.items progress.now.taken }
    ensures { result ≡ is_free tables.now.given.items progress.now.chosen.items pad }
{
    tables.of_pad(pad).is_none() && !progress.taken.contains(&pad)
}

// Whether a pad is free and has the wires.
fn is_fit(chip: &Chip, tables: &Tables, progress: &Progress, want: Want, pad: Pad) -> bool
    requires kept { AreKept tables.now }
    requires taken { AreTaken progress.now.chosen.items progress.now.taken }
    ensures { result ≡ is_fit chip.now tables.now.given.items progress.now.chosen.items want pad }
{
    if is_free(tables, progress, pad) {
        return suits(chip, want, pad);
    }
    false
}

// The place of the first free pad that has the wires.
fn first_fit(
    chip: &Chip,
    pads: &[Pad],
    tables: &Tables,
    progress: &Progress,
    want: Want,
) -> Option<usize>
    requires kept { AreKept tables.now }
    requires done { AreDone chip.now pads.now tables.now.given.items progress.now }
    ensures found { option_and_then (slice_get pads.now) result
        ≡ find (is_fit chip.now tables.now.given.items progress.now.chosen.items want) pads.now }
    ensures passed { IfSome result (λ place. (place < length pads.now)
        × (list_any (is_fit chip.now tables.now.given.items progress.now.chosen.items want)
        (take place pads.now)
        ≡ false)) }
{
    for place in progress.starts[kind_of(want)]..pads.len() {
        if is_fit(chip, tables, progress, want, pads[place]) {
            return Some(place);
        }
    }
    None
}

// Gives the next port the first free pad that has the wires.
fn choose_free(
    alloc: Global,
    chip: &Chip,
    pads: &[Pad],
    outer: &Outer<'_>,
    tables: &Tables,
    progress: &mut Progress,
    want: Want,
) -> Result<(), PinFault>
    requires kept { AreKept tables.now }
    requires done { AreDone chip.now pads.now tables.now.given.items progress.old }
    ensures chosen { Extends result progress.new.chosen.items (with_next progress.old.chosen.items
        (by_free (with_first outer.now.first outer.now.netlist.now) (length progress.old.chosen.items) want
        (find (is_fit chip.now tables.now.given.items progress.old.chosen.items want) pads.now))) }
    ensures done { OnOk result (AreDone chip.now pads.now tables.now.given.items progress.new) }
{
    let Some(place) = first_fit(chip, pads, tables, progress, want) else {
        let port = outer_name(alloc, outer, progress.chosen.len())?;
        return Err(PinFault::NoPadLeft { port });
    };
    progress.starts[kind_of(want)] = place;
    progress.push(Chosen {
        pad: pads[place],
        pullup: want.pullup,
    })?;
    Ok(())
}

// Gives the next port the pad of its constraint, and without one the first free pad that has the wires.
fn choose(
    alloc: Global,
    chip: &Chip,
    pads: &[Pad],
    outer: &Outer<'_>,
    tables: &Tables,
    progress: &mut Progress,
    want: Want,
) -> Result<(), PinFault>
    requires kept { AreKept tables.now }
    requires done { AreDone chip.now pads.now tables.now.given.items progress.old }
    ensures chosen { Extends result progress.new.chosen.items
        (with_next progress.old.chosen.items (next_chosen chip.now pads.now (with_first outer.now.first outer.now.netlist.now)
        tables.now.given.items progress.old.chosen.items want)) }
    ensures done { OnOk result (AreDone chip.now pads.now tables.now.given.items progress.new) }
{
    let Some(given) = tables.of_port(progress.chosen.len()) else {
        return choose_free(alloc, chip, pads, outer, tables, progress, want);
    };
    progress.push(Chosen {
        pad: given.pad,
        pullup: given.pullup.unwrap_or(want.pullup),
    })?;
    Ok(())
}

/// Gives each port its pad, or answers the first for which none is left.
pub fn choose_all(
    alloc: Global,
    chip: &Chip,
    pads: &[Pad],
    outer: &Outer<'_>,
    tables: &Tables,
    progress: &mut Progress,
    wants: &[Want],
) -> Result<(), PinFault>
    requires kept { AreKept tables.now }
    requires done { AreDone chip.now pads.now tables.now.given.items progress.old }
    ensures { Extends result progress.new.chosen.items (all_chosen chip.now pads.now (with_first outer.now.first outer.now.netlist.now)
        tables.now.given.items progress.old.chosen.items wants.now) }
{
    for want in wants {
        choose(alloc, chip, pads, outer, tables, progress, *want)?;
    }
    Ok(())
}
