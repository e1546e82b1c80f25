//! The names of the signals of a configured chip.
ghost use Rattle.std.specs.Prelude.{◌≡◌, ◌++◌, ◌∷◌, [], codes, decimal, IfOk, OnOk};
ghost use Rattle.std.specs.List.{flat_map};
ghost use Rattle.indexmap.specs.IndexSet.{insert_key};
ghost use Rattle.ice_chip.specs.Database.{same_pad};
ghost use Rattle.ice_chip.specs.Views.{package_view};
ghost use Rattle.ice_chip.specs.Within.{different_pads};
ghost use Rattle.ice_back_laws.specs.Numbers.{pin_names, pad_names, cell_name, cell_names};
ghost use Rattle.ice_back.specs.Adding.{with_names, HasRoomForNames};
ghost use Rattle.ice_back.specs.Naming.{new_names};

use ice_base::{NoMemory, TileAt};
use ice_chip::{Package, Pad};
use ice_net::Netlist;
use indexmap::IndexSet;
use itoa::Buffer;
use std::alloc::Global;

/// Adds a name that is new.
pub(crate) fn add_name(netlist: &mut Netlist, name: &[u8]) -> Result<(), NoMemory>
    requires { HasRoomForNames netlist.old (name.now ∷ []) }
    ensures { OnOk result (netlist.new ≡ with_names netlist.old (name.now ∷ [])) }
{
    netlist.signal(name)?;
    Ok(())
}

// ---- pads
// Adds the name of a pad's signal: that of the pin behind a few letters.
fn add_pin_name(
    alloc: Global,
    netlist: &mut Netlist,
    letters: &[u8],
    pin: &[u8],
) -> Result<(), NoMemory>
    requires { HasRoomForNames netlist.old ((letters.now ++ pin.now) ∷ []) }
    ensures { OnOk result (netlist.new ≡ with_names netlist.old ((letters.now ++ pin.now) ∷ [])) }
{
    let mut name = Vec::new(alloc);
    name.extend_from_slice(letters)?;
    name.extend_from_slice(pin)?;
    add_name(netlist, &name)
}

// Adds the name of a signal of a pad's register: that of the pin behind `h_`, with an ending.
fn add_kept_name(
    alloc: Global,
    netlist: &mut Netlist,
    pin: &[u8],
    ending: &[u8],
) -> Result<(), NoMemory>
    requires { HasRoomForNames netlist.old ((codes "h_" ++ pin.now ++ ending.now) ∷ []) }
    ensures { OnOk result
        (netlist.new ≡ with_names netlist.old ((codes "h_" ++ pin.now ++ ending.now) ∷ [])) }
{
    let mut name = Vec::new(alloc);
    name.extend_from_slice(b"h_")?;
    name.extend_from_slice(pin)?;
    name.extend_from_slice(ending)?;
    add_name(netlist, &name)
}

// Adds the names of the five signals of a pad, by its first pin.
fn add_pin_names(alloc: Global, netlist: &mut Netlist, pin: &[u8]) -> Result<(), NoMemory>
    requires { HasRoomForNames netlist.old (pin_names pin.now) }
    ensures { OnOk result (netlist.new ≡ with_names netlist.old (pin_names pin.now)) }
{
    add_pin_name(alloc, netlist, b"p_", pin)?;
    add_pin_name(alloc, netlist, b"in_", pin)?;
    add_kept_name(alloc, netlist, pin, b"_in")?;
    add_kept_name(alloc, netlist, pin, b"_out")?;
    add_pin_name(alloc, netlist, b"g_", pin)?;
    Ok(())
}

// Adds the names of the signals of a pin's pad, where no earlier pin leads to it.
fn add_new_names(
    alloc: Global,
    netlist: &mut Netlist,
    seen: &mut IndexSet<Pad>,
    pin: &[u8],
    pad: Pad,
) -> Result<(), NoMemory>
    requires { HasRoomForNames netlist.old (new_names seen.old.keys (pin.now, pad)) }
    ensures netlist { OnOk result
        (netlist.new ≡ with_names netlist.old (new_names seen.old.keys (pin.now, pad))) }
    ensures seen { OnOk result (seen.new.keys ≡ insert_key same_pad seen.old.keys pad) }
{
    if seen.insert(pad)? {
        return add_pin_names(alloc, netlist, pin);
    }
    Ok(())
}

/// Adds the names of the signals of the pads of a package.
///
/// # Errors
/// Want of memory alone.
pub(crate) fn add_pad_names(
    alloc: Global,
    netlist: &mut Netlist,
    package: &Package,
) -> Result<(), NoMemory>
    requires room { HasRoomForNames netlist.old
        (flat_map (pad_names (package_view «package».now)) (package_view «package».now).pads) }
    requires pads { (package_view «package».now).pads
        ≡ different_pads (package_view «package».now).pins }
    ensures { OnOk result (netlist.new ≡ with_names netlist.old
        (flat_map (pad_names (package_view «package».now)) (package_view «package».now).pads)) }
{
    let mut seen = IndexSet::new(alloc);
    for (pin, pad) in package.pins.iter() {
        add_new_names(alloc, netlist, &mut seen, pin.as_bytes(), *pad)?;
    }
    Ok(())
}

// ---- logic cells
// Writes a number in decimal digits.
fn put_number(name: &mut Vec<u8>, number: u64) -> Result<(), NoMemory>
    ensures { OnOk result (name.new.items ≡ name.old.items ++ decimal number) }
{
    let mut buffer = Buffer::new();
    name.extend_from_slice(buffer.format(number).as_bytes())?;
    Ok(())
}

// Writes the column and the row of a tile.
fn put_tile(name: &mut Vec<u8>, tile: TileAt) -> Result<(), NoMemory>
    ensures { OnOk result (name.new.items
        ≡ name.old.items ++ codes "x" ++ decimal tile.x ++ codes "_y" ++ decimal tile.y) }
{
    name.extend_from_slice(b"x")?;
    put_number(name, u64::from(tile.x))?;
    name.extend_from_slice(b"_y")?;
    put_number(name, u64::from(tile.y))
}

// The name of what stands at a cell.
fn cell_name(alloc: Global, what: &[u8], cell: (TileAt, u8)) -> Result<Vec<u8>, NoMemory>
    ensures { IfOk result (λ name. name.items ≡ cell_name what.now cell) }
{
    let mut name = Vec::new(alloc);
    put_tile(&mut name, cell.0)?;
    name.extend_from_slice(what)?;
    put_number(&mut name, u64::from(cell.1))?;
    Ok(name)
}

// Adds the name of what stands at a cell.
fn add_cell_name(
    alloc: Global,
    netlist: &mut Netlist,
    what: &[u8],
    cell: (TileAt, u8),
) -> Result<(), NoMemory>
    requires { HasRoomForNames netlist.old (cell_name what.now cell ∷ []) }
    ensures { OnOk result (netlist.new ≡ with_names netlist.old (cell_name what.now cell ∷ [])) }
{
    let name = cell_name(alloc, what, cell)?;
    add_name(netlist, &name)
}

// Adds the names of the three signals of a cell.
fn add_names_of_cell(
    alloc: Global,
    netlist: &mut Netlist,
    cell: (TileAt, u8),
) -> Result<(), NoMemory>
    requires { HasRoomForNames netlist.old (cell_names cell) }
    ensures { OnOk result (netlist.new ≡ with_names netlist.old (cell_names cell)) }
{
    add_cell_name(alloc, netlist, b"_lut_", cell)?;
    add_cell_name(alloc, netlist, b"_dff_", cell)?;
    add_cell_name(alloc, netlist, b"_carry_", cell)?;
    Ok(())
}

/// Adds the names of the signals of logic cells.
///
/// # Errors
/// Want of memory alone.
pub(crate) fn add_cell_names(
    alloc: Global,
    netlist: &mut Netlist,
    cells: &[(TileAt, u8)],
) -> Result<(), NoMemory>
    requires { HasRoomForNames netlist.old (flat_map cell_names cells.now) }
    ensures { OnOk result (netlist.new ≡ with_names netlist.old (flat_map cell_names cells.now)) }
{
    for cell in cells {
        add_names_of_cell(alloc, netlist, *cell)?;
    }
    Ok(())
}
