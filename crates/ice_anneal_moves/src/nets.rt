//! The nets of a design by cells.

use ice_anneal_board::{NetNodes, Node, Touched, Wiring, wiring_of};
use ice_anneal_nets::measuring_nets;
use ice_anneal_reach::{Ends, NetPlaces, Span, Standing, Touch, TouchLists};
use ice_anneal_seats::{Grid, Place, Seats};
use ice_anneal_springs::NodeLists;
use ice_anneal_ways::End;
use ice_base::{NoMemory, to_u32};
use ice_cells::{Cluster, Design, Items, LogicCell, control_at};
use ice_chip::Chip;
use ice_pads::Pads;
use ice_place_defs::Placed;
use std::alloc::Global;

/// How many cells a net has at most that is looked at where two cells change places. A larger one hardly tells one from the other.
const MOST_CELLS: u32 = 32;

/// The nets by cells, where the nodes of each stand, and the nets of each cell.
#[derive(Drop)]
pub struct CellNets {
    /// The nodes of the nets.
    pub nodes: NodeLists,
    /// The nets of each cell.
    pub touching: TouchLists,
    // Of the nets of each cell those that tell it from other cells.
    telling: TouchLists,
    /// Where their nodes stand.
    pub standing: Standing,
}

// The cluster of a cell alone.
fn alone(alloc: Global, cells: &[LogicCell], cell: u32) -> Result<Cluster, NoMemory> {
    Ok(Cluster {
        cells: Items::from_vec(vec![in alloc; Some(cell); 1]?),
        control: control_at(cells, cell),
        run: None,
    })
}

// A cluster for each cell.
fn each_alone(alloc: Global, cells: &[LogicCell]) -> Result<Vec<Cluster>, NoMemory> {
    let mut clusters = Vec::with_capacity(alloc, cells.len())?;
    for cell in 0..cells.len() {
        clusters.push(alone(alloc, cells, to_u32(cell)?)?)?;
    }
    Ok(clusters)
}

// The nets by cells: those by clusters, where each cell is a cluster of its own.
fn wiring_by_cells(
    alloc: Global,
    chip: &Chip,
    design: &Design,
    pads: &Pads,
) -> Result<Wiring, NoMemory> {
    let clusters = each_alone(alloc, design.cells())?;
    let nets = measuring_nets(
        alloc,
        &Placed {
            chip,
            design,
            clusters: clusters.as_slice(),
            tiles: &[],
            ports: pads.ports(),
            globals: pads.globals(),
            direct: pads.direct(),
        },
    )?;
    let number = to_u32(nets.len())?;
    wiring_of(alloc, nets, clusters.len())
}

// One more cell has each of these nets.
fn count_cell(sizes: &mut Vec<u32>, nets: &[usize]) {
    for net in nets {
        if let Some(size) = sizes.get_mut(*net) {
            *size = size.saturating_add(1);
        }
    }
}

// How many cells each net has.
fn sizes_of(alloc: Global, wiring: &Wiring) -> Result<Vec<u32>, NoMemory> {
    let mut sizes = vec![in alloc; 0u32; wiring.nets.len()]?;
    for touched in &wiring.touching {
        count_cell(&mut sizes, &touched.nets);
    }
    Ok(sizes)
}

// Whether a net tells one cell from another: it has several nodes, and few cells.
fn is_telling(nets: &[NetNodes], sizes: &[u32], net: usize) -> bool {
    match (nets.get(net), sizes.get(net)) {
        (Some(own), Some(size)) => own.nodes.len() > 1 && *size <= MOST_CELLS,
        _ => false,
    }
}

// Whether a net is one of a list: where the sizes of nets are given, only one that tells one cell from another.
fn is_listed(nets: &[NetNodes], sizes: Option<&[u32]>, net: usize) -> bool {
    match sizes {
        Some(sizes) => is_telling(nets, sizes, net),
        None => true,
    }
}

// The nets of each cell; where their sizes are given, only those that tell it from other cells.
fn lists_of(alloc: Global, wiring: &Wiring, sizes: Option<&[u32]>) -> Result<TouchLists, NoMemory> {
    let mut lists = TouchLists {
        touches: Vec::new(alloc),
        spans: Vec::with_capacity(alloc, wiring.touching.len())?,
    };
    for touched in &wiring.touching {
        let first = lists.touches.len();
        for net in &touched.nets {
            if is_listed(&wiring.nets, sizes, *net) {
                lists.touches.push(Touch {
                    net: to_u32(*net)?,
                    nodes: 1,
                })?;
            }
        }
        let end = lists.touches.len();
        lists.spans.push(Span { first, end })?;
    }
    Ok(lists)
}

// A node by cells. Pads and global buffers stay at their places.
fn end_of(node: Node, grid: Grid) -> End {
    match node {
        Node::Fixed(tile) => End::Pad(grid.place_of(tile)),
        Node::Cluster(cell) => End::Cell(cell),
    }
}

// The nodes of nets.
fn nodes_of(alloc: Global, nets: &[NetNodes], grid: Grid) -> Result<NodeLists, NoMemory> {
    let mut lists = NodeLists {
        nodes: Vec::new(alloc),
        spans: Vec::with_capacity(alloc, nets.len())?,
    };
    for net in nets {
        let first = lists.nodes.len();
        for node in &net.nodes {
            lists.nodes.push(end_of(*node, grid))?;
        }
        let end = lists.nodes.len();
        lists.spans.push(Span { first, end })?;
    }
    Ok(lists)
}

// Notes where the pads and global buffers of a net stand.
fn add_tiles(own: &mut NetPlaces, nodes: &[Node], grid: Grid) {
    for node in nodes {
        if let Node::Fixed(tile) = node {
            own.add(grid.place_of(*tile));
        }
    }
}

// Where the pads and global buffers of nets stand.
fn fixed_places(alloc: Global, wiring: &Wiring, grid: Grid) -> Result<Vec<NetPlaces>, NoMemory> {
    let mut places = Vec::with_capacity(alloc, wiring.nets.len())?;
    for net in &wiring.nets {
        let mut own = NetPlaces::empty();
        add_tiles(&mut own, &net.nodes, grid);
        places.push(own)?;
    }
    Ok(places)
}

// Notes that a node of each of these nets stands at a place.
fn add_node(places: &mut Vec<NetPlaces>, nets: &[usize], place: Place) {
    for net in nets {
        if let Some(own) = places.get_mut(*net) {
            own.add(place);
        }
    }
}

// Notes where the cells of nets stand.
fn add_cells(places: &mut Vec<NetPlaces>, touching: &[Touched], seats: &Seats) {
    for (cell, touched) in touching.iter().enumerate() {
        let place = seats.place_of(seats.cluster_of(cell));
        add_node(places, &touched.nets, place);
    }
}

/// The nets of a design by cells, as they stand. It fails for want of memory alone.
pub fn nets_of(
    alloc: Global,
    chip: &Chip,
    design: &Design,
    pads: &Pads,
    grid: Grid,
    seats: &Seats,
) -> Result<CellNets, NoMemory> {
    let wiring = wiring_by_cells(alloc, chip, design, pads)?;
    let sizes = sizes_of(alloc, &wiring)?;
    let telling = lists_of(alloc, &wiring, Some(sizes.as_slice()))?;
    let touching = lists_of(alloc, &wiring, None)?;
    let mut places = fixed_places(alloc, &wiring, grid)?;
    add_cells(&mut places, &wiring.touching, seats);
    Ok(CellNets {
        nodes: nodes_of(alloc, &wiring.nets, grid)?,
        touching,
        telling,
        standing: Standing::new(alloc, places)?,
    })
}

impl CellNets {
    /// How many nets there are.
    pub fn count(&self) -> usize {
        self.nodes.spans.len()
    }

    /// How many nets all cells have, each counted for each of its cells.
    pub fn touches(&self) -> usize {
        self.touching.touches.len()
    }

    /// The nets of a cell.
    pub fn of(&self, cell: usize) -> &[Touch] {
        self.touching.of(cell)
    }

    /// The nodes of a net.
    pub fn nodes_of(&self, net: u32) -> &[End] {
        self.nodes.of(net as usize)
    }

    /// By how much the nets grow that are looked at where two cells change places, the first of which stands at the first place.
    pub fn growth_of_cells(&mut self, one: usize, other: usize, from: Place, to: Place) -> i64 {
        let (going, coming) = (self.telling.of(one), self.telling.of(other));
        self.standing.growth_of(going, coming, from, to)
    }

    /// Where the nets of a cell that stands at this place end without it.
    pub fn ends_without(&self, cell: usize, place: Place) -> Ends {
        let mut ends = Ends::none();
        for touch in self.of(cell) {
            if let Some((low, high)) = self.standing.box_without(touch.net, place) {
                ends.add(low, high);
            }
        }
        ends
    }

    /// A cell goes from one place to another.
    pub fn shift_cell(&mut self, cell: usize, from: Place, to: Place) {
        self.standing.shift(self.touching.of(cell), from, to);
    }
}
