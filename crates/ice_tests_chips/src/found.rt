//! What is found in a chip, as questions with their answers.
use crate::claims::expect_that;
use ice_base::{RowNo, TileAt, WireNo, name_of};
use ice_chip::{Chip, Pad, TileKind};
use ice_tests_small_chips::{count_words, number_at, word_at};
use std::alloc::Global;
use std::process::Abort;

/// What is found in a chip. The answer to what is looked up stands last, and is nothing where it is not there.
pub enum Finding {
    /// The number of wires.
    Wires(u32),
    /// For each row of switches its wire and its source.
    Rows(&'static [u8]),
    /// The numbers of tiles, groups and functions.
    Parts(usize, usize, usize),
    /// The place of the tile of this number.
    Tile(usize, TileAt),
    /// The first row of the group of this number.
    Group(usize, RowNo),
    /// For each name of this wire its tile and the name.
    Names(WireNo, &'static [u8]),
    /// The wire of a name.
    Wire(TileAt, &'static [u8], Option<WireNo>),
    /// The kind of a tile.
    Kind(TileAt, Option<TileKind>),
    /// The line of a function.
    Function(TileKind, &'static [u8], Option<u32>),
    /// The numbers of pins and pads of a package.
    Package(&'static [u8], Option<(usize, usize)>),
    /// The pad of a pin of a package.
    Pin(&'static [u8], &'static [u8], Option<Pad>),
    /// The pad of this number of a package.
    Pad(&'static [u8], usize, Option<Pad>),
    /// The pad that serves a pad.
    Enable(Pad, Option<Pad>),
    /// The tile that feeds a global.
    Global(u8, Option<TileAt>),
    /// The tile that holds the column buffers of a tile.
    Buffers(TileAt, Option<TileAt>),
}

// Whether the chip has exactly these rows.
fn has_rows(chip: &Chip, answer: &[u8]) -> bool {
    for number in 0..chip.rows() {
        let (group, row) = chip.row(RowNo(number));
        let place = number as usize * 2;
        if group.wire.0 != number_at(answer, place)
            || row.source.0 != number_at(answer, place + 1)
        {
            return false;
        }
    }
    count_words(answer) == chip.rows() as usize * 2
}

// Whether the chip has so many tiles, groups and functions.
fn has_parts(chip: &Chip, tiles: usize, groups: usize, functions: usize) -> bool {
    chip.tiles().len() == tiles
        && chip.groups().len() == groups
        && chip.functions().len() == functions
}

// Whether the tile of that number stands at this place.
fn has_tile(chip: &Chip, number: usize, at: TileAt) -> bool {
    match chip.tiles().get(number) {
        Some(tile) => tile.at == at,
        None => false,
    }
}

// Whether the rows of the group of that number begin with this one.
fn has_group(chip: &Chip, number: usize, first: RowNo) -> bool {
    match chip.groups().get(number) {
        Some(group) => group.first == first,
        None => false,
    }
}

// The number at a place of a text as a coordinate.
fn coordinate(text: &[u8], place: usize) -> u16 {
    number_at(text, place).min(65535) as u16
}

// The tile that two words of a text name, from this place on.
fn tile_in(text: &[u8], place: usize) -> TileAt {
    TileAt {
        x: coordinate(text, place),
        y: coordinate(text, place.saturating_add(1)),
    }
}

// Whether the wire has exactly these names.
fn has_names(chip: &Chip, wire: WireNo, answer: &[u8]) -> bool {
    if wire.0 >= chip.wires() {
        return false;
    }
    let mut place: usize = 0;
    for known in chip.names(wire) {
        let name = word_at(answer, place.saturating_add(2));
        if known.tile != tile_in(answer, place) || known.name.as_bytes() != name {
            return false;
        }
        place = place.saturating_add(3);
    }
    count_words(answer) == place
}

// Whether the function stands in this line, or there is none.
fn has_function(chip: &Chip, kind: TileKind, name: &[u8], line: Option<u32>) -> bool {
    match chip.function(kind, name) {
        Some(function) => line == Some(function.line),
        None => line.is_none(),
    }
}

// Whether the package has so many pins and pads, or there is none.
fn has_package(chip: &Chip, name: &[u8], counts: Option<(usize, usize)>) -> bool {
    match chip.package(name) {
        Some(package) => counts == Some((package.pins.len(), package.pads.len())),
        None => counts.is_none(),
    }
}

// The pad of a pin of a package.
fn pad_of(rt: &impl Abort, alloc: Global, chip: &Chip, name: &[u8], pin: &[u8]) -> Option<Pad> {
    let package = chip.package(name).expect(rt, "a package");
    let pin = name_of(alloc, pin).expect(rt, "memory");
    package.pins.get(&pin).copied()
}

// The pad of that number of a package.
fn numbered_pad(rt: &impl Abort, chip: &Chip, name: &[u8], number: usize) -> Option<Pad> {
    let package = chip.package(name).expect(rt, "a package");
    package.pads.get_index(number).copied()
}

// Whether this is found in the chip.
fn is_found(rt: &impl Abort, alloc: Global, chip: &Chip, finding: &Finding) -> bool {
    match *finding {
        Finding::Wires(wires) => chip.wires() == wires,
        Finding::Rows(rows) => has_rows(chip, rows),
        Finding::Parts(tiles, groups, functions) => has_parts(chip, tiles, groups, functions),
        Finding::Tile(number, at) => has_tile(chip, number, at),
        Finding::Group(number, first) => has_group(chip, number, first),
        Finding::Names(wire, names) => has_names(chip, wire, names),
        Finding::Wire(tile, name, wire) => chip.wire_named(tile, name) == wire,
        Finding::Kind(tile, kind) => chip.kind_at(tile) == kind,
        Finding::Function(kind, name, line) => has_function(chip, kind, name, line),
        Finding::Package(name, counts) => has_package(chip, name, counts),
        Finding::Pin(name, pin, pad) => pad_of(rt, alloc, chip, name, pin) == pad,
        Finding::Pad(name, number, pad) => numbered_pad(rt, chip, name, number) == pad,
        Finding::Enable(pad, server) => chip.ieren_of(pad) == server,
        Finding::Global(global, feeder) => chip.global_of(global) == feeder,
        Finding::Buffers(tile, holder) => chip.colbuf_of(tile) == holder,
    }
}

/// Fails, with the number of a finding, unless each is found in the chip.
pub fn expect_in(rt: &impl Abort, alloc: Global, chip: &Chip, findings: &[Finding]) {
    let mut number: u8 = 0;
    for finding in findings {
        expect_that(rt, is_found(rt, alloc, chip, finding), &[number]);
        number = number.saturating_add(1);
    }
}
