//! The memory of a search.
ghost use Rattle.std.specs.Prelude.{◌≡◌, ◌+◌, ◌*◌, ◌<◌, ◌≤◌, ◌^◌, ℕ, [], Bool, List, Option, None, false, length, vec_capacity, Some, is_some, IsSome, OnSome, IfOk, IfSome, IfNone};
ghost use Rattle.ice_path.specs.Queue.{IsEmpty, IsQueue, queue_len};
ghost use Rattle.ice_path.specs.Aims.{Fits, IsAim, bound_in, leads};
ghost use Rattle.ice_graph.specs.Hops.{AreHops};
ghost use Rattle.ice_path.specs.Search.{label, done};
ghost use Rattle.ice_core.specs.Congestion.{ArePrices, price};
ghost use Rattle.ice_path.specs.Room.{IsFor, AreWires};
ghost use Rattle.ice_graph.specs.Network.{least_bound};
ghost use Rattle.ice_path.specs.Walks.{AreSettled, IsCostTo, NoWalkTo};
ghost use Rattle.ice_path.specs.Paths.{IsTakenTo};

use crate::aim::Aim;
use crate::back::take_path;
use crate::clear::wipe;
use crate::look::{look_back, widened_by};
use crate::queue::{Queue, clear, queue_for};
use crate::search::search;
use crate::start::root_all;
use ice_base::{NoMemory, WireNo};
use ice_core::{MOST_PRICE, MOST_STEPS, Prices};
use ice_graph::{Edge, Graph, Tree};
use std::alloc::Global;
use std::marker::Model;

/// The memory of a search in a graph, taken once and used for each search after another, and of the last search
/// the path and the wires that it settled.
#[derive(Drop)]
pub struct Scratch {
    labels: Vec<Option<u64>>,
    done: Vec<bool>,
    touched: Vec<u32>,
    queue: Queue,
    edges: usize,
    order: Vec<WireNo>,
    path: Vec<Edge>,
    found: bool,
    ahead: Ahead,
}

/// What a search may know of the way before it begins: which wires are near a target, and what a walk costs from others.
#[derive(Drop)]
pub struct Ahead {
    /// Of each wire near a target what a walk to a target costs at least.
    pub near: Vec<Option<u64>>,
    /// The wires that were looked at, among them those that are near.
    pub marked: Vec<u32>,
    /// What a walk costs at least from another wire, by how many rows it has at least.
    pub beyond: Vec<u64>,
}

impl Model for Scratch {
    ghost use Rattle.ice_path.specs.Room.{Room};

    ghost Value = { Room };

    ghost use Rattle.ice_path.specs.Room.{room_of, IsClear};

    ghost view = { room_of };

    ghost invariant = { IsClear };
}

impl Scratch {
    /// Takes the memory for searches in this graph.
    /// It answers `NoMemory` where it finds none.
    pub fn new(alloc: Global, graph: &Graph) -> Result<Scratch, NoMemory>
        ensures { IfOk result (IsFor graph.now) }
    {
        let wires = graph.wires() as usize;
        let (labels, done) = marks(alloc, wires)?;
        let (touched, order, path) = lists(alloc, wires)?;
        let edges = graph.edges().len();
        let ahead = ahead_of(alloc, wires)?;
        let queue = queue_for(alloc, wires + edges)?;
        Ok(Scratch {
            labels,
            done,
            touched,
            queue,
            edges,
            order,
            path,
            found: false,
            ahead,
        })
    }
}

/// The least cost of a walk from the tree to one of the targets, or None where no walk leads to any of them. The
/// cost of a walk is the sum of the prices of the wires that it enters. With one price and one bound added the
/// least cost is below 2^64. The scratch keeps the taken path of that cost, which `path` gives, to the first of the
/// targets that can be reached at it.
///
/// The scratch was made for this graph, and the prices are for its wires. The targets, of which there is one at
/// least, and the wires of the tree are wires of the graph. It takes no memory.
pub fn connect(
    graph: &Graph,
    prices: &Prices,
    tree: &Tree,
    targets: &[WireNo],
    scratch: &mut Scratch,
) -> Option<u64>
    requires prices { ArePrices prices.now }
    requires wires { length prices.now.history.items ≡ graph.now.wires }
    requires tree { AreWires graph.now.wires tree.now.wires.items }
    requires targets { AreWires graph.now.wires targets.now }
    requires some { 0 < length targets.now }
    requires scratch { IsFor graph.now scratch.old }
    ensures some { IfSome result
        (IsCostTo graph.now.edges (price prices.now) tree.now.wires.items targets.now) }
    ensures bound { IfSome result (λ cost. cost + MOST_PRICE + 131071 < 2 ^ 64) }
    ensures none { IfNone result (NoWalkTo graph.now.edges tree.now.wires.items targets.now) }
    ensures found { is_some scratch.new.path ≡ is_some result }
    ensures path { IfSome scratch.new.path
        (IsTakenTo graph.now.edges (price prices.now) tree.now.wires.items targets.now) }
    ensures settled { IfSome result (λ cost. AreSettled graph.now.edges (price prices.now)
        tree.now.wires.items (least_bound graph.now targets.now) cost scratch.new.settled) }
    ensures scratch { IsFor graph.now scratch.new }
{
    graph.is_graph();
    let aim = Aim {
        targets,
        guides: targets,
        hops: &[],
        near: &[],
        beyond: &[],
    };
    let cost = find(
        graph,
        prices,
        &tree.wires,
        &aim,
        &mut scratch.labels,
        &mut scratch.done,
        &mut scratch.order,
        &mut scratch.touched,
        &mut scratch.queue,
        &mut scratch.path,
    );
    scratch.found = cost.is_some();
    cost
}

/// The same as `connect`, found sooner: by how many rows lead at least from each wire to the targets, and by looking back from
/// them first. It says nothing of the wires that it settles.
pub fn connect_ahead(
    graph: &Graph,
    prices: &Prices,
    tree: &Tree,
    targets: &[WireNo],
    scratch: &mut Scratch,
) -> Option<u64>
    requires prices { ArePrices prices.now }
    requires wires { length prices.now.history.items ≡ graph.now.wires }
    requires tree { AreWires graph.now.wires tree.now.wires.items }
    requires targets { AreWires graph.now.wires targets.now }
    requires some { 0 < length targets.now }
    requires scratch { IsFor graph.now scratch.old }
    ensures some { IfSome result
        (IsCostTo graph.now.edges (price prices.now) tree.now.wires.items targets.now) }
    ensures bound { IfSome result (λ cost. cost + MOST_PRICE + 131071 < 2 ^ 64) }
    ensures none { IfNone result (NoWalkTo graph.now.edges tree.now.wires.items targets.now) }
    ensures found { is_some scratch.new.path ≡ is_some result }
    ensures path { IfSome scratch.new.path
        (IsTakenTo graph.now.edges (price prices.now) tree.now.wires.items targets.now) }
    ensures scratch { IsFor graph.now scratch.new }
{
    let least = find_ahead(
        graph,
        prices,
        &tree.wires,
        targets,
        graph.hops(targets),
        &mut scratch.labels,
        &mut scratch.done,
        &mut scratch.order,
        &mut scratch.touched,
        &mut scratch.queue,
        &mut scratch.path,
        &mut scratch.ahead.near,
        &mut scratch.ahead.marked,
        &mut scratch.ahead.beyond,
    );
    scratch.found = least.is_some();
    least
}

/// The path of the last search, which found one: the edges of the taken path in order, from the tree to the
/// target taken. It is empty where that is a wire of the tree. It takes no memory.
pub fn path(scratch: &Scratch) -> &[Edge]
    requires { IsSome scratch.now.path }
    ensures { scratch.now.path ≡ Some result.now }
{
    &scratch.path
}

/// The wires that the last search settled, which found a path: each wire of which label and bound make at most
/// the cost of the path, once, and no other. It takes no memory.
pub fn settled(scratch: &Scratch) -> &[WireNo]
    requires { IsSome scratch.now.path }
    ensures { result.now ≡ scratch.now.settled }
{
    &scratch.order
}

// No label and no mark for each wire.
fn marks(alloc: Global, wires: usize) -> Result<(Vec<Option<u64>>, Vec<bool>), NoMemory>
    ensures long { IfOk result (λ r. (length r.0.items ≡ wires) × (length r.1.items ≡ wires)) }
    ensures fresh { IfOk result (λ r. (w : ℕ) → label r.0.items w ≡ None) }
    ensures open_wires { IfOk result (λ r. (w : ℕ) → done r.1.items w ≡ false) }
{
    let labels = vec![in alloc; None; wires]?;
    let done = vec![in alloc; false; wires]?;
    Ok((labels, done))
}

// Empty lists with room for each wire: of touched ones, of settled ones, and a path.
fn lists(alloc: Global, wires: usize) -> Result<(Vec<u32>, Vec<WireNo>, Vec<Edge>), NoMemory>
    ensures touched { IfOk result (λ r. (r.0.items ≡ []) × (wires ≤ vec_capacity r.0)) }
    ensures settled { IfOk result (λ r. wires ≤ vec_capacity r.1) }
    ensures path { IfOk result (λ r. wires ≤ vec_capacity r.2) }
{
    let touched = Vec::with_capacity(alloc, wires)?;
    let order = Vec::with_capacity(alloc, wires)?;
    let path = Vec::with_capacity(alloc, wires)?;
    Ok((touched, order, path))
}

// No label for each wire.
fn no_labels(alloc: Global, wires: usize) -> Result<Vec<Option<u64>>, NoMemory>
    ensures long { IfOk result (λ labels. length labels.items ≡ wires) }
    ensures none { IfOk result (λ labels. (w : ℕ) → label labels.items w ≡ None) }
{
    let labels = vec![in alloc; None; wires]?;
    Ok(labels)
}

// What a search may know of the way, where it knows nothing yet.
fn ahead_of(alloc: Global, wires: usize) -> Result<Ahead, NoMemory>
    ensures near { IfOk result (λ a.
        (length a.near.items ≡ wires) × ((w : ℕ) → label a.near.items w ≡ None)) }
    ensures marked { IfOk result (λ a. (a.marked.items ≡ []) × (wires ≤ vec_capacity a.marked)) }
    ensures beyond { IfOk result (λ a. length a.beyond.items ≡ 64) }
{
    let near = no_labels(alloc, wires)?;
    let beyond = vec![in alloc; 0; 64]?;
    let marked = Vec::with_capacity(alloc, wires)?;
    Ok(Ahead {
        near,
        marked,
        beyond,
    })
}

// The first target, where nothing is known of rows.
fn guides_of<'a>(targets: &'a [WireNo], hops: &[u8]) -> &'a [WireNo]
    requires { 0 < length targets.now }
    ensures { (n : ℕ) → AreWires n targets.now → AreWires n result.now }
{
    if hops.is_empty() {
        &targets[..1]
    } else {
        &targets[..0]
    }
}

// The least cost of a walk to one of the targets, from memory that is clear. It leaves the memory clear but for the
// wires that were settled, and the taken path where there is one.
#[tactic(auto, using(crate::proofs::Touching::touches_none, crate::proofs::Touching::only_at))]
fn find(
    graph: &Graph,
    prices: &Prices,
    tree: &[WireNo],
    aim: &Aim,
    labels: &mut [Option<u64>],
    settled: &mut [bool],
    order: &mut Vec<WireNo>,
    touched: &mut Vec<u32>,
    queue: &mut Queue,
    path: &mut Vec<Edge>,
) -> Option<u64>
    requires prices { ArePrices prices.now }
    requires lengths { (length prices.now.history.items ≡ graph.now.wires)
        × (length labels.old ≡ graph.now.wires) × (length settled.old ≡ graph.now.wires) }
    requires tree { AreWires graph.now.wires tree.now }
    requires fits { Fits graph.now aim.now }
    requires aim { IsAim graph.now.edges (price prices.now) aim.now.targets.now
        (bound_in graph.now aim.now) (leads aim.now) }
    requires labels { (w : ℕ) → label labels.old w ≡ None }
    requires settled { (w : ℕ) → done settled.old w ≡ false }
    requires list { graph.now.wires ≤ vec_capacity order.old }
    requires touched { touched.old.items ≡ [] }
    requires space { graph.now.wires ≤ vec_capacity touched.old }
    requires queue { IsEmpty queue.old × (queue_len queue.old ≡ 0) × IsQueue queue.old }
    requires room { graph.now.wires + length graph.now.edges ≤ queue.old.room }
    requires path { graph.now.wires ≤ vec_capacity path.old }
    ensures some { IfSome result
        (IsCostTo graph.now.edges (price prices.now) tree.now aim.now.targets.now) }
    ensures bound { IfSome result (λ cost. cost ≤ MOST_STEPS * MOST_PRICE) }
    ensures taken { OnSome result
        (IsTakenTo graph.now.edges (price prices.now) tree.now aim.now.targets.now path.new.items) }
    ensures path { vec_capacity path.new ≡ vec_capacity path.old }
    ensures none { IfNone result (NoWalkTo graph.now.edges tree.now aim.now.targets.now) }
    ensures listed { IfSome result (λ cost. AreSettled graph.now.edges (price prices.now) tree.now
        (bound_in graph.now aim.now) cost order.new.items) }
    ensures list { vec_capacity order.new ≡ vec_capacity order.old }
    ensures labels { (w : ℕ) → label labels.new w ≡ None }
    ensures settled { (w : ℕ) → done settled.new w ≡ false }
    ensures touched { touched.new.items ≡ [] }
    ensures space { vec_capacity touched.new ≡ vec_capacity touched.old }
    ensures queue { IsEmpty queue.new × (queue_len queue.new ≡ 0) × IsQueue queue.new }
    ensures capacity { queue.new.room ≡ queue.old.room }
{
    path.clear();
    order.clear();
    root_all(graph, aim, labels, touched, queue, tree, settled);
    let cost = search(
        graph, prices, tree, aim, labels, settled, order, touched, queue,
    );
    take_path(graph, prices, tree, aim, labels, cost, path);
    wipe(labels, settled, touched);
    touched.clear();
    clear(queue);
    cost
}

// The same by how many rows lead at least to the targets, and by looking back from them first.
fn find_ahead(
    graph: &Graph,
    prices: &Prices,
    tree: &[WireNo],
    targets: &[WireNo],
    hops: &[u8],
    labels: &mut [Option<u64>],
    settled: &mut [bool],
    order: &mut Vec<WireNo>,
    touched: &mut Vec<u32>,
    queue: &mut Queue,
    path: &mut Vec<Edge>,
    near: &mut [Option<u64>],
    marked: &mut Vec<u32>,
    beyond: &mut [u64],
) -> Option<u64>
    requires prices { ArePrices prices.now }
    requires lengths { (length prices.now.history.items ≡ graph.now.wires)
        × (length labels.old ≡ graph.now.wires) × (length settled.old ≡ graph.now.wires)
        × (length near.old ≡ graph.now.wires) × (length beyond.old ≡ 64) }
    requires tree { AreWires graph.now.wires tree.now }
    requires targets { AreWires graph.now.wires targets.now }
    requires some { 0 < length targets.now }
    requires hops { AreHops graph.now.edges targets.now hops.now }
    requires labels { (w : ℕ) → label labels.old w ≡ None }
    requires settled { (w : ℕ) → done settled.old w ≡ false }
    requires list { graph.now.wires ≤ vec_capacity order.old }
    requires touched { touched.old.items ≡ [] }
    requires space { graph.now.wires ≤ vec_capacity touched.old }
    requires queue { IsEmpty queue.old × (queue_len queue.old ≡ 0) × IsQueue queue.old }
    requires room { graph.now.wires + length graph.now.edges ≤ queue.old.room }
    requires path { graph.now.wires ≤ vec_capacity path.old }
    requires near { (w : ℕ) → label near.old w ≡ None }
    requires marked { marked.old.items ≡ [] }
    requires marks { graph.now.wires ≤ vec_capacity marked.old }
    ensures some { IfSome result
        (IsCostTo graph.now.edges (price prices.now) tree.now targets.now) }
    ensures bound { IfSome result (λ cost. cost ≤ MOST_STEPS * MOST_PRICE) }
    ensures taken { OnSome result
        (IsTakenTo graph.now.edges (price prices.now) tree.now targets.now path.new.items) }
    ensures path { vec_capacity path.new ≡ vec_capacity path.old }
    ensures none { IfNone result (NoWalkTo graph.now.edges tree.now targets.now) }
    ensures list { vec_capacity order.new ≡ vec_capacity order.old }
    ensures labels { (w : ℕ) → label labels.new w ≡ None }
    ensures settled { (w : ℕ) → done settled.new w ≡ false }
    ensures touched { touched.new.items ≡ [] }
    ensures space { vec_capacity touched.new ≡ vec_capacity touched.old }
    ensures queue { IsEmpty queue.new × (queue_len queue.new ≡ 0) × IsQueue queue.new }
    ensures capacity { queue.new.room ≡ queue.old.room }
    ensures near { (w : ℕ) → label near.new w ≡ None }
    ensures marked { marked.new.items ≡ [] }
    ensures marks { vec_capacity marked.new ≡ vec_capacity marked.old }
{
    graph.is_graph();
    let guides = guides_of(targets, hops);
    let way = Aim {
        targets,
        guides,
        hops,
        near: &[],
        beyond: &[],
    };
    let widened = widened_by(hops);
    look_back(
        graph, prices, &way, widened, near, settled, marked, beyond, queue,
    );
    let aim = Aim {
        targets,
        guides,
        hops,
        near: &*near,
        beyond: &*beyond,
    };
    let least = find(
        graph, prices, tree, &aim, labels, settled, order, touched, queue, path,
    );
    wipe(near, settled, marked);
    marked.clear();
    least
}
