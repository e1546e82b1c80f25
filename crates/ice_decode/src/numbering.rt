//! The points of a chip by numbers: the wires first, then eight carries for each logic tile.
ghost use Rattle.std.specs.Prelude.{◌≡◌, ◌<◌, ◌++◌, Some, All, [], ◌∷◌, length, map, slice_get, IfOk, OnOk};
ghost use Rattle.ice_base_values.specs.System.{present};
ghost use Rattle.ice_base_values.specs.Order.{At, Has};
ghost use Rattle.ice_chip.specs.IsRead.{IsChip};
ghost use Rattle.ice_decode.specs.Cells.{cells_in};
ghost use Rattle.ice_decode.specs.Points.{carry_point, points_by, AreAllPoints, IsNumbered};
ghost use Rattle.ice_decode.specs.Different.{different};

use crate::Point;
use crate::tiles::logic_tiles;
use ice_base::{NoMemory, TileAt, WireNo};
use ice_chip::Chip;
use indexmap::IndexSet;
use std::alloc::Global;
use std::marker::Model;

/// The points of a chip. Contracts see the list of the points, in the order of their numbers.
#[derive(Drop)]
pub struct Numbering {
    // How many wires there are.
    wires: u32,
    // The different logic tiles.
    tiles: IndexSet<TileAt>,
    // The points.
    points: Vec<Point>,
}

impl Model for Numbering {
    ghost use Rattle.std.specs.Prelude.{List};
    ghost use Rattle.ice_decode.specs.declared.point.Point.{Point};
    ghost use Rattle.ice_decode.specs.Numberings.{IsNumbering};

    ghost Value = { List Point };

    ghost view = { λ n. n.points.items };

    ghost invariant = { IsNumbering };
}

// The different ones of some tiles, in their order.
fn different(alloc: Global, tiles: &[TileAt]) -> Result<IndexSet<TileAt>, NoMemory>
    ensures { IfOk result (λ set. set.keys ≡ different [] tiles.now) }
{
    let mut set = IndexSet::new(alloc);
    for tile in tiles {
        set.insert(*tile)?;
    }
    Ok(set)
}

// Adds the carries of a tile.
fn add_carries(points: &mut Vec<Point>, tile: TileAt) -> Result<(), NoMemory>
    ensures { OnOk result (points.new.items ≡ points.old.items ++ map carry_point (cells_in tile)) }
{
    points.push(Point::Carry { tile, cell: 0 })?;
    points.push(Point::Carry { tile, cell: 1 })?;
    points.push(Point::Carry { tile, cell: 2 })?;
    points.push(Point::Carry { tile, cell: 3 })?;
    points.push(Point::Carry { tile, cell: 4 })?;
    points.push(Point::Carry { tile, cell: 5 })?;
    points.push(Point::Carry { tile, cell: 6 })?;
    points.push(Point::Carry { tile, cell: 7 })?;
    Ok(())
}

// So many wires, and eight carries for each of these tiles.
fn points_by(alloc: Global, wires: u32, tiles: &[TileAt]) -> Result<Vec<Point>, NoMemory>
    ensures { IfOk result (λ points. points.items ≡ points_by wires tiles.now) }
{
    let mut points = Vec::new(alloc);
    for wire in 0..wires {
        points.push(Point::Wire(WireNo(wire)))?;
    }
    for tile in tiles {
        add_carries(&mut points, *tile)?;
    }
    Ok(points)
}

impl Numbering {
    /// The points of a chip.
    ///
    /// # Errors
    /// Want of memory alone.
    pub fn new(alloc: Global, chip: &Chip) -> Result<Numbering, NoMemory>
        ensures points { IfOk result (AreAllPoints chip.now) }
        ensures chip { IsChip chip.now }
    {
        let wires = chip.wires();
        let logic = logic_tiles(alloc, chip)?;
        let tiles = different(alloc, &logic)?;
        let points = points_by(alloc, wires, tiles.as_slice())?;
        Ok(Numbering {
            wires,
            tiles,
            points,
        })
    }

    /// The points in the order of their numbers. It takes no memory.
    pub fn points(&self) -> &[Point]
        ensures { result.now ≡ self.now }
    {
        self.points.as_slice()
    }

    /// The number of a point, which is one of these. It takes no memory.
    pub fn number(&self, point: Point) -> usize
        requires { Has self.now point }
        ensures { At self.now result point }
    {
        match point {
            Point::Wire(wire) => wire.0 as usize,
            Point::Carry { tile, cell } => {
                let place = self.tiles.get_index_of(&tile).unwrap();
                self.wires as usize + 8 * place + cell as usize
            }
        }
    }

    // Adds the number of a point, where there is one.
    fn add_number(&self, read: Option<Point>, row: &mut Vec<usize>) -> Result<(), NoMemory>
        requires { IsNumbered self.now read }
        ensures { OnOk result (map (slice_get self.now) row.new.items
            ≡ map (slice_get self.now) row.old.items ++ map (λ p. Some p) (present (read ∷ []))) }
    {
        let Some(point) = read else {
            return Ok(());
        };
        row.push(self.number(point))?;
        Ok(())
    }

    /// Makes a row the numbers of the points that are there.
    pub fn number_all(&self, reads: &[Option<Point>], row: &mut Vec<usize>) -> Result<(), NoMemory>
        requires { All (IsNumbered self.now) reads.now }
        ensures { OnOk result
            (map (slice_get self.now) row.new.items ≡ map (λ p. Some p) (present reads.now)) }
    {
        row.clear();
        for read in reads {
            self.add_number(*read, row)?;
        }
        Ok(())
    }

    /// The points of these numbers.
    pub fn points_at(&self, alloc: Global, numbers: &[usize]) -> Result<Vec<Point>, NoMemory>
        requires { All (λ n. n < length self.now) numbers.now }
        ensures { IfOk result (λ points.
            map (λ p. Some p) points.items ≡ map (slice_get self.now) numbers.now) }
    {
        let mut points = Vec::new(alloc);
        for number in numbers {
            points.push(self.points[*number])?;
        }
        Ok(points)
    }
}
