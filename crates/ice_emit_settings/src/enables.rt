//! The input enables of pads.
ghost use Rattle.std.specs.Prelude.{◌≡◌, ◌++◌, [], flat_map, slice_get, IfOk, OnOk};
ghost use Rattle.std.specs.Option.{option_map_or};
ghost use Rattle.std.specs.List.{list_any};
ghost use Rattle.indexmap.specs.IndexSet.{insert_key, insert_all};
ghost use Rattle.ice_chip.specs.Indices.{enables_of};
ghost use Rattle.ice_chip.specs.Database.{same_pad};
ghost use Rattle.ice_emit_defs.specs.Functions.{read_pads, enable_settings};
ghost use Rattle.ice_emit_settings.specs.Enables.{read_pads_at, one_needed, needed_places, disabled_unless, disabled_by};
ghost use Rattle.ice_emit_settings.specs.Views.{views};

use crate::making::push_if;
use ice_base::NoMemory;
use ice_cells::DesignPad;
use ice_chip::{Chip, Pad, TileFunction};
use ice_emit_bits::Setting;
use indexmap::{IndexMap, IndexSet};
use std::alloc::Global;

// Whether the pad is one of these.
fn is_among(pads: &IndexSet<Pad>, pad: Pad) -> bool
    ensures { result ≡ list_any (same_pad pad) pads.now.keys }
{
    pads.contains(&pad)
}

// Adds a pad.
fn add(pads: &mut IndexSet<Pad>, pad: Pad) -> Result<(), NoMemory>
    ensures { OnOk result (pads.new.keys ≡ insert_key same_pad pads.old.keys pad) }
{
    pads.insert_full(pad)?;
    Ok(())
}

// Adds the pad of a port, if something reads it.
#[tactic(auto, using(crate::proofs::Enabling::read_added, crate::proofs::Enabling::none_added))]
fn add_read(pads: &mut IndexSet<Pad>, port: DesignPad, pad: Pad) -> Result<(), NoMemory>
    ensures { OnOk result
        (pads.new.keys ≡ insert_all same_pad pads.old.keys (read_pads_at port pad)) }
{
    if port.reads {
        add(pads, pad)?;
    }
    Ok(())
}

// The same, if there is a pad for it.
fn add_read_at(pads: &mut IndexSet<Pad>, port: DesignPad, pad: Option<Pad>) -> Result<(), NoMemory>
    ensures { OnOk result (pads.new.keys
        ≡ insert_all same_pad pads.old.keys (option_map_or (read_pads_at port) pad [])) }
{
    match pad {
        None => Ok(()),
        Some(pad) => add_read(pads, port, pad),
    }
}

// The pad of that number.
fn pad_at(pads: &[Pad], k: usize) -> Option<Pad>
    ensures { result ≡ slice_get pads.now k }
{
    pads.get(k).copied()
}

// Adds the pads of ports that are read.
fn add_all_read(
    found: &mut IndexSet<Pad>,
    pads: &[Pad],
    ports: &[DesignPad],
) -> Result<(), NoMemory>
    ensures { OnOk result
        (found.new.keys ≡ insert_all same_pad found.old.keys (read_pads pads.now ports.now)) }
{
    for (k, port) in ports.iter().enumerate() {
        add_read_at(found, *port, pad_at(pads, k))?;
    }
    Ok(())
}

// Adds where the input of a pad is enabled, if the pad is read.
#[tactic(auto, using(crate::proofs::Enabling::needed_added, crate::proofs::Enabling::none_needed))]
fn add_needed(
    found: &mut IndexSet<Pad>,
    read: &IndexSet<Pad>,
    pad: Pad,
    enable: Pad,
) -> Result<(), NoMemory>
    ensures { OnOk result (found.new.keys
        ≡ insert_all same_pad found.old.keys (one_needed read.now.keys (pad, enable))) }
{
    if is_among(read, pad) {
        add(found, enable)?;
    }
    Ok(())
}

// Adds where the inputs of pads that are read are enabled.
fn add_all_needed(
    found: &mut IndexSet<Pad>,
    read: &IndexSet<Pad>,
    enables: &IndexMap<Pad, Pad>,
) -> Result<(), NoMemory>
    ensures { OnOk result (found.new.keys
        ≡ insert_all same_pad found.old.keys (needed_places read.now.keys enables.now.entries)) }
{
    for (pad, enable) in enables.iter() {
        add_needed(found, read, *pad, *enable)?;
    }
    Ok(())
}

// Adds that an input is disabled, where no pad that is read is enabled there.
fn push_enable(made: &mut Vec<Setting>, needed: &IndexSet<Pad>, enable: Pad) -> Result<(), NoMemory>
    ensures { OnOk result
        (views made.new.items ≡ views made.old.items ++ disabled_unless needed.now.keys enable) }
{
    push_if(
        made,
        !is_among(needed, enable),
        enable.tile,
        TileFunction::InputEnable(enable.pio),
        0,
    )?;
    Ok(())
}

// Adds which inputs are disabled.
fn push_each(
    made: &mut Vec<Setting>,
    needed: &IndexSet<Pad>,
    enables: &IndexMap<Pad, Pad>,
) -> Result<(), NoMemory>
    ensures { OnOk result (views made.new.items
        ≡ views made.old.items ++ flat_map (disabled_by needed.now.keys) enables.now.entries) }
{
    for (_, enable) in enables.iter() {
        push_enable(made, needed, *enable)?;
    }
    Ok(())
}

// Where the inputs of pads that are read are enabled.
fn needed_of(
    alloc: Global,
    read: &IndexSet<Pad>,
    enables: &IndexMap<Pad, Pad>,
) -> Result<IndexSet<Pad>, NoMemory>
    ensures { IfOk result (λ found. found.keys
        ≡ insert_all same_pad [] (needed_places read.now.keys enables.now.entries)) }
{
    let mut found = IndexSet::new(alloc);
    let done = add_all_needed(&mut found, read, enables);
    done.and(Ok(found))
}

// The pads of ports that are read.
fn read_of(alloc: Global, pads: &[Pad], ports: &[DesignPad]) -> Result<IndexSet<Pad>, NoMemory>
    ensures { IfOk result (λ found.
        found.keys ≡ insert_all same_pad [] (read_pads pads.now ports.now)) }
{
    let mut found = IndexSet::new(alloc);
    let done = add_all_read(&mut found, pads, ports);
    done.and(Ok(found))
}

/// Adds which inputs are disabled: those that no pad needs that is read.
///
/// # Errors
/// Want of memory alone; some of them may be added then.
pub fn push_enables(
    alloc: Global,
    made: &mut Vec<Setting>,
    chip: &Chip,
    pads: &[Pad],
    ports: &[DesignPad],
) -> Result<(), NoMemory>
    ensures { OnOk result (views made.new.items ≡ views made.old.items
        ++ flat_map (enable_settings (enables_of chip.now) (read_pads pads.now ports.now))
        (enables_of chip.now)) }
{
    let enables = chip.enables();
    let read = read_of(alloc, pads, ports)?;
    let found = needed_of(alloc, &read, enables);
    drop(read);
    let needed = found?;
    let done = push_each(made, &needed, enables);
    drop(needed);
    done
}
