//! What is read of a chip text up to a line.
ghost use Rattle.std.specs.Prelude.{◌≡◌, Ok};
ghost use Rattle.ice_chip.specs.Views.{group_view, package_view};
ghost use Rattle.ice_chip_read.specs.Reading.{begun, no_group, no_package};
ghost use Rattle.ice_chip_read.specs.Lines.{with_closed};
ghost use Rattle.ice_chip_read.specs.Views.{Gives, reading_view};

use crate::ChipStop;
use crate::section::Section;
use ice_base::{Name, RowNo, TileAt, WireNo};
use ice_chip::{BitList, ChipParts, Group, Package};
use indexmap::{IndexMap, IndexSet};
use std::alloc::Global;
use std::mem;

/// What is read up to a line: the rows of the sections that are ended, and the section that is open.
#[derive(Drop)]
pub struct Reading {
    /// The rows of the sections that are ended, and those of the open one that stand alone.
    pub parts: ChipParts,
    /// The line of `.device`.
    pub device: u32,
    /// The line of each `.net N`.
    pub nets: IndexMap<u32, u32>,
    /// The section that is open.
    pub section: Section,
    /// The group that is open, where one is.
    pub group: Group,
    /// The package that is open, where one is.
    pub pins: Package,
    /// The number of switch rows so far.
    pub rows: u32,
}

// A group without rows.
fn no_group(alloc: Global) -> Group
    ensures { group_view result ≡ no_group }
{
    Group {
        tile: TileAt { x: 0, y: 0 },
        wire: WireNo(0),
        bits: BitList::new(alloc),
        first: RowNo(0),
        rows: Vec::new(alloc),
        line: 0,
    }
}

// A package without pins.
fn no_package(alloc: Global) -> Package
    ensures { package_view result ≡ no_package }
{
    Package {
        name: Name::from_bytes(Vec::new(alloc)),
        pins: IndexMap::new(alloc),
        pads: IndexSet::new(alloc),
    }
}

/// What is read behind the line of `.device`.
pub fn begin(alloc: Global, line: u32, width: u16, height: u16, wires: u32) -> Reading
    ensures { reading_view result ≡ begun line width height wires }
{
    Reading {
        parts: ChipParts::new(alloc, width, height, wires),
        device: line,
        nets: IndexMap::new(alloc),
        section: Section::Rowless,
        group: no_group(alloc),
        pins: no_package(alloc),
        rows: 0,
    }
}

// Lets go of the package that is open. Where none is, as in front of most headings, nothing is made anew.
fn clear_package(alloc: Global, pins: &mut Package)
    ensures { package_view pins.new ≡ no_package }
{
    if pins.name.as_bytes().is_empty() && pins.pins.is_empty() && pins.pads.is_empty() {
        return;
    }
    drop(mem::replace(pins, no_package(alloc)));
}

/// Ends the section that is open: its group or package joins the others.
pub fn close(alloc: Global, reading: &mut Reading) -> Result<(), ChipStop>
    ensures { Gives (λ _. reading_view reading.new) result
        (Ok (with_closed (reading_view reading.old))) }
{
    let section = mem::replace(&mut reading.section, Section::Rowless);
    let group = mem::replace(&mut reading.group, no_group(alloc));
    match section {
        Section::Pins => {
            drop(group);
            let package = mem::replace(&mut reading.pins, no_package(alloc));
            reading.parts.packages.push(package)?;
        }
        Section::Switches => {
            clear_package(alloc, &mut reading.pins);
            reading.parts.groups.push(group)?;
        }
        _ => {
            drop(group);
            clear_package(alloc, &mut reading.pins);
        }
    }
    Ok(())
}
