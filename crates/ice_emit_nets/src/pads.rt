//! The sinks of pads and global buffers.
ghost use Rattle.std.specs.Prelude.{◌≡◌, ◌++◌, [], map, slice_get, OnOk};
ghost use Rattle.std.specs.Option.{option_map_or};
ghost use Rattle.ice_place_defs.specs.Loads.{pads_loads, fed_roots, globals_loads};
ghost use Rattle.ice_emit_nets.specs.Ends.{load_end};
ghost use Rattle.ice_emit_nets.specs.Given.{pad_ends, global_ends};

use crate::pins::{TilePin, push_load};
use ice_base::{NoMemory, Sink};
use ice_cells::{DesignPad, Root};
use ice_chip::{Chip, Pad};
use ice_place_defs::fed_root;
use std::alloc::Global;

// Adds the sinks of what drives and enables a pad.
#[tactic(auto, using(crate::proofs::Targets::two_loads))]
fn push_pad(
    alloc: Global,
    ends: &mut Vec<(Root, Sink)>,
    chip: &Chip,
    pad: DesignPad,
    place: Pad,
) -> Result<(), NoMemory>
    ensures { OnOk result (ends.new.items ≡ ends.old.items ++ pad_ends chip.now pad place) }
{
    push_load(
        alloc,
        ends,
        chip,
        place.tile,
        TilePin::Drive(place.pio),
        pad.drive,
    )?;
    push_load(
        alloc,
        ends,
        chip,
        place.tile,
        TilePin::DriveEnable(place.pio),
        pad.enable,
    )?;
    Ok(())
}

// The same, if there is a place for it.
fn push_pad_at(
    alloc: Global,
    ends: &mut Vec<(Root, Sink)>,
    chip: &Chip,
    pad: DesignPad,
    place: Option<Pad>,
) -> Result<(), NoMemory>
    ensures { OnOk result
        (ends.new.items ≡ ends.old.items ++ option_map_or (pad_ends chip.now pad) place []) }
{
    match place {
        None => Ok(()),
        Some(place) => push_pad(alloc, ends, chip, pad, place),
    }
}

// The place of that number.
fn place_at(ports: &[Pad], k: usize) -> Option<Pad>
    ensures { result ≡ slice_get ports.now k }
{
    ports.get(k).copied()
}

// Adds the sinks of pads at these places.
pub(crate) fn push_pads(
    alloc: Global,
    ends: &mut Vec<(Root, Sink)>,
    chip: &Chip,
    ports: &[Pad],
    pads: &[DesignPad],
) -> Result<(), NoMemory>
    ensures { OnOk result (ends.new.items
        ≡ ends.old.items ++ map (load_end chip.now) (pads_loads ports.now pads.now)) }
{
    for (k, pad) in pads.iter().enumerate() {
        push_pad_at(alloc, ends, chip, *pad, place_at(ports, k))?;
    }
    Ok(())
}

// Adds the sink of what feeds a global.
fn push_global(
    alloc: Global,
    ends: &mut Vec<(Root, Sink)>,
    chip: &Chip,
    root: Option<Root>,
    number: u8,
) -> Result<(), NoMemory>
    ensures { OnOk result (ends.new.items ≡ ends.old.items ++ global_ends chip.now root number) }
{
    match chip.global_of(number) {
        None => Ok(()),
        Some(tile) => push_load(alloc, ends, chip, tile, TilePin::Feed, root),
    }
}

// The same, if there is a global for it.
fn push_global_at(
    alloc: Global,
    ends: &mut Vec<(Root, Sink)>,
    chip: &Chip,
    root: Option<Root>,
    number: Option<u8>,
) -> Result<(), NoMemory>
    ensures { OnOk result
        (ends.new.items ≡ ends.old.items ++ option_map_or (global_ends chip.now root) number []) }
{
    match number {
        None => Ok(()),
        Some(number) => push_global(alloc, ends, chip, root, number),
    }
}

// The global of that number.
fn global_at(numbers: &[u8], k: usize) -> Option<u8>
    ensures { result ≡ slice_get numbers.now k }
{
    numbers.get(k).copied()
}

// Adds the sinks of what feeds these globals, but for those of direct buffers.
pub(crate) fn push_globals(
    alloc: Global,
    ends: &mut Vec<(Root, Sink)>,
    chip: &Chip,
    numbers: &[u8],
    direct: &[bool],
    roots: &[Option<Root>],
) -> Result<(), NoMemory>
    ensures { OnOk result (ends.new.items ≡ ends.old.items ++ map (load_end chip.now)
        (globals_loads chip.now numbers.now (fed_roots direct.now roots.now))) }
{
    for (k, root) in roots.iter().enumerate() {
        let read = fed_root(direct, k, *root);
        push_global_at(alloc, ends, chip, read, global_at(numbers, k))?;
    }
    Ok(())
}
