//! Headings and sections of a chip text.
ghost use Rattle.std.specs.Prelude.{◌≡◌};
ghost use Rattle.ice_chip_read.specs.Words.{heading_of, tile_heading_of};

use ice_chip::TileKind;

/// The section that is open, by what its rows are.
#[derive(Clone, Copy)]
pub enum Section {
    /// A section that has no rows.
    Rowless,
    /// A section whose rows are read over.
    ReadOver,
    /// The pins of a package.
    Pins,
    /// The tiles that feed the globals.
    BufferInputs,
    /// The pads that can feed the globals.
    BufferPins,
    /// The extra bits that put the levels of pads on globals.
    ExtraBits,
    /// Where the input enables of the pads stand.
    InputEnables,
    /// Where the column buffers of the tiles stand.
    ColumnBuffers,
    /// The functions of a kind of tile.
    Bits(TileKind),
    /// The names of a wire.
    Names(u32),
    /// The rows of a group of switches.
    Switches,
}

/// What the first word of a heading names.
#[derive(Clone, Copy)]
pub enum Heading {
    /// `.device`
    Device,
    /// `.pins`
    Pins,
    /// `.gbufin`
    BufferInputs,
    /// `.gbufpin`
    BufferPins,
    /// `.extra_bits`
    ExtraBits,
    /// `.ieren`
    InputEnables,
    /// `.colbuf`
    ColumnBuffers,
    /// `.io_tile` and its like
    Tile(TileKind),
    /// `.io_tile_bits` and its like
    Bits(TileKind),
    /// `.net`
    Net,
    /// `.buffer` and `.routing`
    Switches,
    /// Every other heading.
    Other,
}

// The heading of a tile or of the functions of its kind.
fn tile_heading(word: &[u8]) -> Heading
    ensures { result ≡ tile_heading_of word.now }
{
    if word == b".io_tile".as_slice() {
        return Heading::Tile(TileKind::Io);
    }
    if word == b".logic_tile".as_slice() {
        return Heading::Tile(TileKind::Logic);
    }
    if word == b".ramb_tile".as_slice() {
        return Heading::Tile(TileKind::RamBottom);
    }
    if word == b".ramt_tile".as_slice() {
        return Heading::Tile(TileKind::RamTop);
    }
    if word == b".io_tile_bits".as_slice() {
        return Heading::Bits(TileKind::Io);
    }
    if word == b".logic_tile_bits".as_slice() {
        return Heading::Bits(TileKind::Logic);
    }
    if word == b".ramb_tile_bits".as_slice() {
        return Heading::Bits(TileKind::RamBottom);
    }
    if word == b".ramt_tile_bits".as_slice() {
        return Heading::Bits(TileKind::RamTop);
    }
    Heading::Other
}

/// What the first word of a heading names.
pub fn heading_named(word: &[u8]) -> Heading
    ensures { result ≡ heading_of word.now }
{
    if word == b".buffer".as_slice() || word == b".routing".as_slice() {
        return Heading::Switches;
    }
    if word == b".net".as_slice() {
        return Heading::Net;
    }
    if word == b".device".as_slice() {
        return Heading::Device;
    }
    if word == b".pins".as_slice() {
        return Heading::Pins;
    }
    if word == b".gbufin".as_slice() {
        return Heading::BufferInputs;
    }
    if word == b".gbufpin".as_slice() {
        return Heading::BufferPins;
    }
    if word == b".extra_bits".as_slice() {
        return Heading::ExtraBits;
    }
    if word == b".ieren".as_slice() {
        return Heading::InputEnables;
    }
    if word == b".colbuf".as_slice() {
        return Heading::ColumnBuffers;
    }
    tile_heading(word)
}
