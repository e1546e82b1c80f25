//! The sections of groups of switches.
ghost use Rattle.std.specs.Prelude.{◌≡◌, ◌++◌, ◌+◌, ◌*◌, ◌<◌, ◌≤◌, ◌∷◌, [], codes, decimal, length, OnOk};
ghost use Rattle.ice_base.specs.Lines.{text_of_lines};
ghost use Rattle.ice_sample.specs.Lines.{binary};
ghost use Rattle.ice_sample.specs.Groups.{group_heading, source_rows, group_lines};

use crate::bits::put_bits;
use crate::grid::Tile;
use crate::text::{end_line, put_binary, put_placed, put_worded};
use ice_base::NoMemory;

// Writes the heading of a group: the wire that it drives, and its bits.
fn put_group_heading(
    text: &mut Vec<u8>,
    tile: Tile,
    bit: u16,
    size: u16,
    target: u32,
) -> Result<(), NoMemory>
    requires { bit + size ≤ 1000 }
    ensures { OnOk result (text.new.items ≡ text.old.items ++ text_of_lines
        (group_heading tile.kind tile.at bit (record { target = target; size = size; sources = [] })
        ∷ [])) }
{
    text.extend_from_slice(b".buffer ")?;
    put_placed(text, tile.at, u64::from(target))?;
    put_bits(text, tile.kind, bit, size)?;
    end_line(text)
}

// Writes the row of a source of a group.
fn put_source(text: &mut Vec<u8>, size: u16, value: u64, source: u32) -> Result<(), NoMemory>
    requires { size ≤ 32 }
    ensures { OnOk result (text.new.items ≡ text.old.items
        ++ text_of_lines ((binary size value ++ codes " " ++ decimal source) ∷ [])) }
{
    put_binary(text, size, value)?;
    put_worded(text, b" ", u64::from(source))?;
    end_line(text)
}

// Writes the rows of a group of a size.
fn put_sources(text: &mut Vec<u8>, size: u16, sources: &[u32]) -> Result<(), NoMemory>
    requires { size ≤ 32 }
    ensures { OnOk result
        (text.new.items ≡ text.old.items ++ text_of_lines (source_rows size 1 sources.now)) }
{
    let mut value = 1;
    for source in sources {
        put_source(text, size, value, *source)?;
        value += 1;
    }
    Ok(())
}

/// Writes a group of a tile: its bits begin with this one and are so many, it drives the target, and it takes the
/// sources, in order.
pub fn put_group(
    text: &mut Vec<u8>,
    tile: Tile,
    bit: u16,
    size: u16,
    target: u32,
    sources: &[u32],
) -> Result<(), NoMemory>
    requires size { size ≤ 32 }
    requires bits { bit + size ≤ 1000 }
    ensures { OnOk result (text.new.items ≡ text.old.items ++ text_of_lines (group_lines tile.kind
        tile.at bit (record { target = target; size = size; sources = sources.now }))) }
{
    put_group_heading(text, tile, bit, size, target)?;
    put_sources(text, size, sources)
}
