//! Headings and sections of a text of bits.
ghost use Rattle.std.specs.Prelude.{◌≡◌};
ghost use Rattle.ice_asc.specs.Headings.{heading_of};

use ice_base::TileAt;
use ice_chip::TileKind;

/// What takes the next line.
#[derive(Clone, Copy)]
pub enum Section {
    /// A heading, and no other line.
    Nowhere,
    /// Lines are read over up to the next heading.
    ReadOver,
    /// The rows of a tile.
    Rows {
        /// The line of the tile's heading.
        heading: u32,
        /// The place of the tile.
        at: TileAt,
        /// The kind of the tile.
        kind: TileKind,
    },
    /// The words of a block RAM.
    Words {
        /// The line of its heading.
        heading: u32,
        /// The place of its lower tile.
        at: TileAt,
    },
}

/// What the first word of a heading names.
#[derive(Clone, Copy)]
pub enum Heading {
    /// `.device`
    Device,
    /// `.io_tile` and its like
    Tile(TileKind),
    /// `.ram_data`
    RamData,
    /// `.extra_bit`
    ExtraBit,
    /// `.sym`
    Symbol,
    /// Every other heading.
    Other,
}

/// What the first word of a heading names.
pub fn heading_named(word: &[u8]) -> Heading
    ensures { result ≡ heading_of word.now }
{
    if word == b".device".as_slice() {
        return Heading::Device;
    }
    if word == b".io_tile".as_slice() {
        return Heading::Tile(TileKind::Io);
    }
    if word == b".logic_tile".as_slice() {
        return Heading::Tile(TileKind::Logic);
    }
    if word == b".ramb_tile".as_slice() {
        return Heading::Tile(TileKind::RamBottom);
    }
    if word == b".ramt_tile".as_slice() {
        return Heading::Tile(TileKind::RamTop);
    }
    if word == b".ram_data".as_slice() {
        return Heading::RamData;
    }
    if word == b".extra_bit".as_slice() {
        return Heading::ExtraBit;
    }
    if word == b".sym".as_slice() {
        return Heading::Symbol;
    }
    Heading::Other
}
