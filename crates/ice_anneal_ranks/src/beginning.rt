//! Where the search begins: cells in clusters, and units on sites, by the places where springs draw the cells.

use ice_anneal_moves::{MoveUnit, Mover, Movers, State};
use ice_anneal_seats::Place;
use ice_anneal_springs::{Mean, Point, wanted_places};
use ice_base::NoMemory;
use std::alloc::Global;

/// In how many strips of columns a path winds at most through the places.
const MOST_STRIPS: usize = 12;

// Where cells are wanted, and what has found its place.
#[derive(Drop)]
struct Beginning {
    // A place for each cell.
    wanted: Vec<Place>,
    // Whether each is a plain cell whose cluster is still to be found.
    waiting: Vec<bool>,
    // Whether a unit has found its place on each site.
    taken: Vec<bool>,
    // About how many columns and rows of sites there are.
    side: usize,
}

// How many columns a strip has for so many cells on a chip of so many columns: there are about as many strips as clusters along each.
fn strip_width(cells: usize, columns: usize) -> u8 {
    let mut strips = 1;
    for more in 2..=MOST_STRIPS {
        if more * more * 8 <= cells {
            strips = more;
        }
    }
    (columns / strips.max(1)).clamp(1, 63) as u8
}

// How far along a path a place stands that winds through strips so many columns wide.
fn on_path(place: Place, width: u8) -> usize {
    let strip = place.column / width.max(1);
    let row = if strip % 2 == 0 {
        place.row
    } else {
        63u8.saturating_sub(place.row)
    };
    usize::from(strip) * 64 + usize::from(row)
}

impl Beginning {
    // Where a cell is wanted.
    fn place_of(&self, cell: usize) -> Place {
        self.wanted
            .get(cell)
            .copied()
            .unwrap_or(Place { column: 0, row: 0 })
    }

    // Whether a cell waits for its cluster.
    fn is_waiting(&self, cell: usize) -> bool {
        self.waiting.get(cell).copied().unwrap_or(false)
    }

    // A cell waits, or waits no longer.
    fn wait(&mut self, cell: usize, waits: bool) {
        if let Some(own) = self.waiting.get_mut(cell) {
            *own = waits;
        }
    }

    // Adds the cells in these slots that do not wait.
    fn add_cells(&self, mean: &mut Mean, slots: &[Option<usize>]) {
        for slot in slots {
            if let Some(cell) = *slot {
                if !self.is_waiting(cell) {
                    mean.add(Point::of(self.place_of(cell)), 1);
                }
            }
        }
    }

    // Cells come into the slots that they have together, in the order in which they are wanted along a path.
    fn order_cells(
        &self,
        alloc: Global,
        state: &mut State,
        cells: &[usize],
    ) -> Result<(), NoMemory> {
        let width = strip_width(cells.len(), self.side);
        let mut slots = Vec::with_capacity(alloc, cells.len())?;
        let mut path = Vec::with_capacity(alloc, cells.len())?;
        for cell in cells {
            slots.push(state.seats.slot_of(*cell))?;
            path.push(*cell)?;
        }
        slots.sort()?;
        path.sort_by_key(|cell| on_path(self.place_of(*cell), width))?;
        for (slot, cell) in slots.iter().zip(&path) {
            state.move_cell(*cell, *slot);
        }
        Ok(())
    }

    // The cell of a list that waits and is wanted nearest to a point, where one waits.
    fn nearest(&self, cells: &[usize], point: Point) -> Option<usize> {
        let mut found = None;
        let mut least = u64::MAX;
        for cell in cells {
            let distance = Point::of(self.place_of(*cell)).distance(point);
            if distance < least && self.is_waiting(*cell) {
                least = distance;
                found = Some(*cell);
            }
        }
        found
    }

    // The nearest cells that wait come into a cluster to others that do not wait.
    fn fill_cluster(&mut self, state: &mut State, plains: &[usize], cluster: usize) {
        let mut mean = Mean::none();
        self.add_cells(&mut mean, state.seats.cells_of(cluster));
        let Some(middle) = mean.middle() else {
            return;
        };
        for k in 0..8 {
            let slot = cluster.saturating_mul(8).saturating_add(k);
            if state
                .seats
                .cell_at(cluster, k)
                .is_some_and(|cell| self.is_waiting(cell))
            {
                if let Some(nearest) = self.nearest(plains, middle) {
                    state.move_cell(nearest, slot);
                    self.wait(nearest, false);
                }
            }
        }
    }

    // Plain cells come into clusters: first to others, and then among each other.
    fn order_plains(
        &mut self,
        alloc: Global,
        state: &mut State,
        plains: &[usize],
    ) -> Result<(), NoMemory> {
        for cell in plains {
            self.wait(*cell, true);
        }
        for cluster in 0..state.seats.clusters() {
            self.fill_cluster(state, plains, cluster);
        }
        let mut rest = Vec::new(alloc);
        for cell in plains {
            if self.is_waiting(*cell) {
                rest.push(*cell)?;
                self.wait(*cell, false);
            }
        }
        self.order_cells(alloc, state, rest.as_slice())
    }

    // The middle of where the cells of a unit are wanted, where it has any.
    fn middle_of(&self, state: &State, unit: MoveUnit) -> Option<Point> {
        let mut mean = Mean::none();
        for k in 0..unit.count {
            let cluster = unit.first.saturating_add(k);
            self.add_cells(&mut mean, state.seats.cells_of(cluster));
        }
        mean.middle()
    }

    // Whether no unit has found its place on so many sites from one on.
    fn are_free(&self, site: usize, count: usize) -> bool {
        let sites = self.taken.get(site..site.saturating_add(count));
        sites.unwrap_or(&[true]).iter().all(|is_taken| !*is_taken)
    }

    // The first of the nearest free sites to a point on which a unit may stand, where there are any.
    fn site_for(&self, state: &State, unit: MoveUnit, point: Point) -> Option<usize> {
        let rows = (unit.count as u64).saturating_sub(1).saturating_mul(128);
        let half = Point {
            column: 0,
            row: rows,
        };
        let mut found = None;
        let mut least = u64::MAX;
        for site in 0..self.taken.len() {
            let middle = Point::of(state.floor.place_at(site)).plus(half);
            let distance = middle.distance(point);
            if distance < least && self.are_free(site, unit.count) && state.may_stand(unit, site) {
                least = distance;
                found = Some(site);
            }
        }
        found
    }

    // A unit goes to the free sites that are nearest to where its cells are wanted.
    fn put_unit(&mut self, state: &mut State, unit: MoveUnit) {
        let Some(middle) = self.middle_of(state, unit) else {
            return;
        };
        let Some(site) = self.site_for(state, unit, middle) else {
            return;
        };
        state.move_unit(unit, site);
        for k in 0..unit.count {
            if let Some(own) = self.taken.get_mut(site.saturating_add(k)) {
                *own = true;
            }
        }
    }

    // All units go to sites, the largest first.
    fn put_units(&mut self, alloc: Global, state: &mut State) -> Result<(), NoMemory> {
        let mut units = Vec::with_capacity(alloc, state.units.list.len())?;
        for unit in &state.units.list {
            units.push(*unit)?;
        }
        units.sort_by_key(|unit| usize::MAX - unit.count)?;
        state.note_bundles();
        for unit in &units {
            self.put_unit(state, *unit);
        }
        Ok(())
    }
}

// The cells of a class.
fn cells_of(alloc: Global, class: &[Mover]) -> Result<Vec<usize>, NoMemory> {
    let mut cells = Vec::with_capacity(alloc, class.len())?;
    for mover in class {
        cells.push(mover.cell)?;
    }
    Ok(cells)
}

// The classes that are plain cells, or the others: a list of the first of each.
fn classes_of(
    alloc: Global,
    state: &State,
    movers: &Movers,
    are_plain: bool,
) -> Result<Vec<Mover>, NoMemory> {
    let mut classes = Vec::new(alloc);
    for (number, mover) in movers.list.iter().enumerate() {
        let is_plain = state
            .cells
            .get(mover.cell)
            .is_some_and(|cell| cell.flop.is_none());
        if number == mover.first && is_plain == are_plain {
            classes.push(*mover)?;
        }
    }
    Ok(classes)
}

/// Puts cells into clusters and units onto sites by the places where springs draw the cells. It fails for want of memory alone.
pub fn begin(alloc: Global, state: &mut State, movers: &Movers) -> Result<(), NoMemory> {
    let (cells, sites) = (state.cells.len(), state.floor.tiles.len());
    let wanted = wanted_places(
        alloc,
        &state.floor,
        &state.seats,
        cells,
        &state.nets.nodes,
        &state.nets.touching,
    )?;
    let mut beginning = Beginning {
        wanted,
        waiting: vec![in alloc; false; cells]?,
        taken: vec![in alloc; false; sites]?,
        side: (state.floor.extent / 2) as usize,
    };
    for class in &classes_of(alloc, state, movers, false)? {
        let own = cells_of(alloc, movers.class_of(*class))?;
        beginning.order_cells(alloc, state, own.as_slice())?;
    }
    for class in &classes_of(alloc, state, movers, true)? {
        let own = cells_of(alloc, movers.class_of(*class))?;
        beginning.order_plains(alloc, state, own.as_slice())?;
    }
    beginning.put_units(alloc, state)
}
