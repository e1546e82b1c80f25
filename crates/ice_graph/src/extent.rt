//! Boxes of tiles.
ghost use Rattle.std.specs.Prelude.{◌≡◌, ◌+◌, ◌-◌, ◌≤◌};
ghost use Rattle.ice_graph.specs.Boxes.{box_at, holds, grown, half_perimeter, gap, distance};

use ice_base::TileAt;

/// A box of tiles: the columns from `west` to `east`, and in them the rows from `south` to `north`.
#[derive(Clone, Copy)]
pub struct Extent {
    /// The first column.
    pub west: u16,
    /// The last column.
    pub east: u16,
    /// The first row.
    pub south: u16,
    /// The last row.
    pub north: u16,
}

impl Extent {
    // The box of one tile.
    pub fn of(tile: TileAt) -> Extent
        ensures { result ≡ box_at tile }
    {
        Extent {
            west: tile.x,
            east: tile.x,
            south: tile.y,
            north: tile.y,
        }
    }

    // Whether the box holds the tile.
    pub fn holds(self, tile: TileAt) -> bool
        ensures { result ≡ holds self tile }
    {
        self.west <= tile.x && tile.x <= self.east && self.south <= tile.y && tile.y <= self.north
    }

    // The smallest box that holds this one and the tile.
    pub fn grown(self, tile: TileAt) -> Extent
        ensures { result ≡ grown self tile }
    {
        Extent {
            west: self.west.min(tile.x),
            east: self.east.max(tile.x),
            south: self.south.min(tile.y),
            north: self.north.max(tile.y),
        }
    }

    // Half the way around the box, counted in steps from tile to tile.
    pub fn half_perimeter(self) -> u32
        ensures half { result ≡ half_perimeter self }
        ensures small { result ≤ 131070 }
    {
        let wide = self.east.saturating_sub(self.west) as u32;
        wide + self.north.saturating_sub(self.south) as u32
    }
}

// How many steps lie between two stretches, each from its first place to its last.
fn gap(first: u16, last: u16, other_first: u16, other_last: u16) -> u32
    ensures gap { result ≡ gap first last other_first other_last }
    ensures small { result ≤ 65535 }
{
    let before = other_first.saturating_sub(last);
    before.max(first.saturating_sub(other_last)) as u32
}

// How many steps lie between two boxes. It is 0 where one of them is missing.
pub fn distance(one: Option<Extent>, other: Option<Extent>) -> u32
    ensures distance { result ≡ distance one other }
    ensures small { result ≤ 131070 }
{
    let (Some(one), Some(other)) = (one, other) else {
        return 0;
    };
    gap(one.west, one.east, other.west, other.east)
        + gap(one.south, one.north, other.south, other.north)
}
