//! Graphs, wires, sinks, nets and prices from texts of numbers. There is none where a number is out of its range, or memory lacks.
ghost use Rattle.std.specs.Prelude.{◌≡◌, ◌<◌, ◌≤◌, ◌+◌, length, IfOk, IfSome, OnOk};
ghost use Rattle.ice_core.specs.Congestion.{ArePrices};
ghost use Rattle.ice_graph.specs.Network.{AreBetween, RowsRise};
ghost use Rattle.ice_negotiate_defs.specs.Rounds.{AreNets};
ghost use Rattle.ice_negotiate_defs.specs.Trees.{AreSinks};
ghost use Rattle.ice_path.specs.Room.{AreWires};
ghost use Rattle.ice_tests_small_graphs.specs.Rising.{AreRising};

use ice_base::{NetNo, RowNo, Sink, TileAt, WireNo};
use ice_core::{Net, Prices};
use ice_graph::{Edge, Graph};
use ice_tests_small_chips::{count_lines, count_words, line_at, number_at};
use std::alloc::{AllocError, Global};

/// Two wires from which two wires are reached over a short wire, 2, and over two more wires, 3 and 4.
pub const TWO_WAYS: &[u8] = b"0 0 2  1 1 2  2 0 3  3 1 3  4 3 4  5 2 5  6 4 5  7 2 6  8 4 6";

// The edge at a place of rows of numbers: its row, which is this one at least, and its two wires.
fn edge_at(wires: u32, least: u32, numbers: &[u8], place: usize) -> Option<Edge>
    ensures least { IfSome result (λ edge. least ≤ edge.row.0) }
    ensures row { IfSome result (λ edge. edge.row.0 < 4294967295) }
    ensures between { IfSome result (λ edge. (edge.from.0 < wires) × (edge.to.0 < wires)) }
{
    let first = place.saturating_mul(3);
    let row = number_at(numbers, first);
    let from = number_at(numbers, first.saturating_add(1));
    let to = number_at(numbers, first.saturating_add(2));
    if row < least || row == u32::MAX || from >= wires || to >= wires {
        return None;
    }
    Some(Edge {
        row: RowNo(row),
        from: WireNo(from),
        to: WireNo(to),
    })
}

/// Adds an edge, and tells the least row of the next.
pub fn add_edge(
    edges: &mut Vec<Edge>,
    _wires: u32,
    _least: u32,
    edge: Edge,
) -> Result<u32, AllocError>
    requires edges { AreRising _wires _least edges.old.items }
    requires least { _least ≤ edge.row.0 }
    requires row { edge.row.0 < 4294967295 }
    requires between { (edge.from.0 < _wires) × (edge.to.0 < _wires) }
    ensures edges { IfOk result (λ next. AreRising _wires next edges.new.items) }
    ensures next { IfOk result (λ next. next ≡ edge.row.0 + 1) }
{
    edges.push(edge)?;
    Ok(edge.row.0 + 1)
}

// Edges by their rows and wires: three numbers for each.
fn edges_of(alloc: Global, wires: u32, numbers: &[u8]) -> Option<Vec<Edge>>
    ensures between { IfSome result (λ edges. AreBetween wires edges.items) }
    ensures rise { IfSome result (λ edges. RowsRise edges.items) }
{
    let mut edges = Vec::new(alloc);
    let mut least = 0;
    for place in 0..count_words(numbers) / 3 {
        let edge = edge_at(wires, least, numbers, place)?;
        match add_edge(&mut edges, wires, least, edge) {
            Ok(next) => least = next,
            Err(_) => return None,
        }
    }
    Some(edges)
}

/// A graph of this many wires and of these edges: three numbers for each.
pub fn graph_of(alloc: Global, wires: u32, numbers: &[u8]) -> Option<Graph>
    ensures { IfSome result (λ graph. graph.wires ≡ wires) }
{
    let edges = edges_of(alloc, wires, numbers)?;
    match Graph::new(alloc, wires, edges) {
        Ok(graph) => Some(graph),
        Err(_) => None,
    }
}

// Tiles of row 0 by their columns.
fn places_of(alloc: Global, columns: &[u8]) -> Result<Vec<TileAt>, AllocError> {
    let mut places = Vec::new(alloc);
    for place in 0..count_words(columns) {
        let x = number_at(columns, place).min(65535) as u16;
        places.push(TileAt { x, y: 0 })?;
    }
    Ok(places)
}

// A graph of this many wires and of these edges at these places, of which there are as many.
fn graph_at(alloc: Global, wires: u32, edges: Vec<Edge>, places: Vec<TileAt>) -> Option<Graph>
    requires between { AreBetween wires edges.items }
    requires rise { RowsRise edges.items }
    ensures { IfSome result (λ graph. graph.wires ≡ wires) }
{
    if places.len() != edges.len() {
        return None;
    }
    match Graph::placed(alloc, wires, edges, places) {
        Ok(graph) => Some(graph),
        Err(_) => None,
    }
}

/// A graph of this many wires and of these edges, which stand in these columns of row 0.
pub fn placed_graph(alloc: Global, wires: u32, numbers: &[u8], columns: &[u8]) -> Option<Graph>
    ensures { IfSome result (λ graph. graph.wires ≡ wires) }
{
    let edges = edges_of(alloc, wires, numbers)?;
    match places_of(alloc, columns) {
        Ok(places) => graph_at(alloc, wires, edges, places),
        Err(_) => None,
    }
}

/// Adds a wire of a graph.
pub fn add_wire(list: &mut Vec<WireNo>, wires: u32, wire: u32) -> Result<(), AllocError>
    requires list { AreWires wires list.old.items }
    requires wire { wire < wires }
    ensures wires { AreWires wires list.new.items }
    ensures some { OnOk result (0 < length list.new.items) }
{
    list.push(WireNo(wire))?;
    Ok(())
}

/// Wires of a graph by their numbers.
pub fn wires_of(alloc: Global, wires: u32, numbers: &[u8]) -> Option<Vec<WireNo>>
    ensures { IfSome result (λ list. AreWires wires list.items) }
{
    let mut list = Vec::new(alloc);
    for place in 0..count_words(numbers) {
        let wire = number_at(numbers, place);
        if wire >= wires || add_wire(&mut list, wires, wire).is_err() {
            return None;
        }
    }
    Some(list)
}

/// A sink by the numbers of its targets, of which there is one at least.
pub fn sink_of(alloc: Global, wires: u32, numbers: &[u8]) -> Option<Sink>
    ensures some { IfSome result (λ sink. 0 < length sink) }
    ensures targets { IfSome result (λ sink. AreWires wires sink) }
{
    let targets = wires_of(alloc, wires, numbers)?;
    if targets.is_empty() {
        return None;
    }
    Some(Sink::from_targets(targets))
}

/// Adds a sink of a net.
pub fn add_sink(sinks: &mut Vec<Sink>, _wires: u32, sink: Sink) -> Result<(), AllocError>
    requires sinks { AreSinks _wires sinks.old.items }
    requires some { 0 < length sink }
    requires targets { AreWires _wires sink }
    ensures { AreSinks _wires sinks.new.items }
{
    sinks.push(sink)?;
    Ok(())
}

/// The sinks of a net: on each line the targets of one.
pub fn sinks_of(alloc: Global, wires: u32, lines: &[u8]) -> Option<Vec<Sink>>
    ensures { IfSome result (λ sinks. AreSinks wires sinks.items) }
{
    let mut sinks = Vec::new(alloc);
    for place in 0..count_lines(lines) {
        let sink = sink_of(alloc, wires, line_at(lines, place))?;
        if add_sink(&mut sinks, wires, sink).is_err() {
            return None;
        }
    }
    Some(sinks)
}

// The net of a number from the wire of that number to these sinks.
fn net_of(alloc: Global, wires: u32, number: u32, lines: &[u8]) -> Option<Net>
    ensures root { IfSome result (λ net. net.root.0 < wires) }
    ensures sinks { IfSome result (λ net. AreSinks wires net.sinks.items) }
{
    if number >= wires {
        return None;
    }
    let sinks = sinks_of(alloc, wires, lines)?;
    Some(Net {
        net: NetNo(number),
        root: WireNo(number),
        sinks,
    })
}

/// Adds a net.
pub fn add_net(nets: &mut Vec<Net>, _graph: &Graph, net: Net) -> Result<(), AllocError>
    requires nets { AreNets _graph.now nets.old.items }
    requires root { net.root.0 < _graph.now.wires }
    requires sinks { AreSinks _graph.now.wires net.sinks.items }
    ensures nets { AreNets _graph.now nets.new.items }
    ensures length { length nets.new.items ≤ length nets.old.items + 1 }
{
    nets.push(net)?;
    Ok(())
}

/// Nets by their sinks, the net of each number from the wire of that number.
pub fn nets_of(alloc: Global, graph: &Graph, nets: &[&[u8]]) -> Option<Vec<Net>>
    ensures { IfSome result (λ list. AreNets graph.now list.items) }
{
    let mut list = Vec::new(alloc);
    let mut number: u32 = 0;
    for lines in nets {
        let net = net_of(alloc, graph.wires(), number, lines)?;
        if add_net(&mut list, graph, net).is_err() {
            return None;
        }
        number = number.saturating_add(1);
    }
    Some(list)
}

/// What seven wires cost, of which wire 2 has a history and is held by others.
pub fn prices_at(alloc: Global, round: u32, history: u8, others: u8) -> Result<Prices, AllocError>
    requires { (1 ≤ round) × (round ≤ 64) }
    ensures prices { IfOk result ArePrices }
    ensures length { IfOk result (λ prices. length prices.history.items ≡ 7) }
{
    let history = vec![in alloc; 0, 0, history as u64, 0, 0, 0, 0]?;
    let others = vec![in alloc; 0, 0, others as u32, 0, 0, 0, 0]?;
    Ok(Prices {
        round,
        history,
        others,
    })
}
