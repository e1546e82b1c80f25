//! Places, pads, wires and globals in range.
ghost use Rattle.std.specs.Prelude.{◌≡◌};
ghost use Rattle.ice_chip.specs.Views.{parts_view};
ghost use Rattle.ice_chip_read.specs.Lines.{tile_in, pad_in, wire_in, global_in};
ghost use Rattle.ice_chip_read.specs.Views.{Says};

use ice_base::TileAt;
use ice_chip::{ChipFault, ChipParts, Pad};

/// The place of these coordinates.
pub fn tile_in(line: u32, parts: &ChipParts, x: u32, y: u32) -> Result<TileAt, ChipFault>
    ensures { Says (λ tile. tile) result (tile_in line (parts_view parts.now) x y) }
{
    if x >= u32::from(parts.width) || y >= u32::from(parts.height) {
        return Err(ChipFault::OutOfRange { line });
    }
    Ok(TileAt {
        x: x as u16,
        y: y as u16,
    })
}

/// The pad of this number, 0 or 1, at the place of these coordinates.
pub fn pad_in(line: u32, parts: &ChipParts, x: u32, y: u32, pio: u32) -> Result<Pad, ChipFault>
    ensures { Says (λ pad. pad) result (pad_in line (parts_view parts.now) x y pio) }
{
    let tile = tile_in(line, parts, x, y)?;
    if pio >= 2 {
        return Err(ChipFault::OutOfRange { line });
    }
    Ok(Pad {
        tile,
        pio: pio as u8,
    })
}

/// A wire of the database.
pub fn wire_in(line: u32, parts: &ChipParts, wire: u32) -> Result<u32, ChipFault>
    ensures { Says (λ wire. wire) result (wire_in line (parts_view parts.now) wire) }
{
    if wire >= parts.wires {
        return Err(ChipFault::OutOfRange { line });
    }
    Ok(wire)
}

/// A global, from 0 to 7.
pub fn global_in(line: u32, global: u32) -> Result<u8, ChipFault>
    ensures { Says (λ global. global) result (global_in line global) }
{
    if global >= 8 {
        return Err(ChipFault::OutOfRange { line });
    }
    Ok(global as u8)
}
