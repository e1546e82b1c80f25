//! Rounds until no wire is overused, or until no more are permitted.
ghost use Rattle.std.specs.Prelude.{◌≡◌, ◌+◌, ◌<◌, ◌≤◌, ◌++◌, [], ◌∷◌, ℕ, None, Some, length, replicate, slice_index, All, IfOk, IfErr, OnOk, vec_len};
ghost use Rattle.ice_core.specs.Moves.{AreWithin, IsOccupancy};
ghost use Rattle.ice_core.specs.declared.log.RoundLog.{RoundLog as Log};
ghost use Rattle.ice_negotiate_defs.specs.Rounds.{AreNets, BeginsWith};
ghost use Rattle.ice_negotiate_defs.specs.Logs.{AreRouted, AreRoutedFrom, IsFault, IsFaultFrom, IsOpeningLog};
ghost use Rattle.ice_negotiate_defs.specs.Fitting.{Fits, wholes};
ghost use Rattle.ice_worker.specs.Kits.{IsKitOf};
ghost use Rattle.ice_negotiate.specs.Progress.{IsAfter, IsBefore, IsPlayed, IsReady, Opening};

use crate::logs::{log_of, opening_log};
use crate::start::{all_nets, bare_trees, first_trees, left_nets};
use ice_base::{NetNo, NoMemory};
use ice_core::{MOST_NETS, MOST_WIRES, Net, RoundLog, RoundPrices, holders, movers};
use ice_desk::Gate;
use ice_graph::{Graph, Tree};
use ice_negotiate_defs::{Kept, RouteFault, Routed};
use ice_negotiate_round::{Round, play, raise};
use ice_words::{Counts, Tally};
use ice_worker::Kit;
use std::alloc::Global;
use std::thread::Threads;

// What is kept from round to round.
#[derive(Drop)]
pub struct State {
    // What the prices of a round are made of: between two rounds that of the next one.
    pub prices: RoundPrices,
    // The nets that move in the next round, or that moved in the last.
    pub moved: Vec<NetNo>,
    // The routes of the nets.
    pub trees: Vec<Tree>,
    // The log of the opening, if there is one, and those of the rounds.
    pub logs: Vec<RoundLog>,
    // The tallies of the rounds.
    pub tallies: Vec<Tally>,
}

// The state before the first round, in which all nets move.
fn start(alloc: Global, graph: &Graph, nets: &[Net]) -> Result<State, NoMemory>
    requires nets { length nets.now ≤ MOST_NETS }
    ensures ready { IfOk result (IsReady graph.now nets.now 0) }
    ensures before { IfOk result (IsBefore graph.now nets.now None 0) }
{
    let wires = graph.wires() as usize;
    Ok(State {
        prices: RoundPrices {
            round: 1,
            history: vec![in alloc; 0u64; wires]?,
            counts: vec![in alloc; 0u32; wires]?,
        },
        moved: all_nets(alloc, nets.len())?,
        trees: bare_trees(alloc, nets.len())?,
        logs: Vec::new(alloc),
        tallies: Vec::new(alloc),
    })
}

// What the prices of the first round are made of, where nets begin with these trees.
fn first_prices(alloc: Global, graph: &Graph, trees: &[Tree]) -> Result<RoundPrices, NoMemory>
    requires trees { length trees.now ≤ MOST_NETS }
    requires within { AreWithin graph.now.wires trees.now }
    ensures fresh { IfOk result (λ prices. prices.history.items ≡ replicate graph.now.wires 0) }
    ensures histories { IfOk result (λ prices. length prices.history.items ≡ graph.now.wires) }
    ensures long { IfOk result (λ prices. length prices.counts.items ≡ graph.now.wires) }
    ensures counts { IfOk result (λ prices. IsOccupancy prices.counts.items trees.now) }
{
    let wires = graph.wires() as usize;
    let counts = holders(alloc, wires, trees)?;
    Ok(RoundPrices {
        round: 1,
        history: vec![in alloc; 0u64; wires]?,
        counts,
    })
}

// A list of the log of an opening alone.
fn first_logs(alloc: Global, kept: &[Kept], trees: &[Tree]) -> Result<Vec<RoundLog>, NoMemory>
    requires few { length kept.now ≤ MOST_NETS }
    requires begun { BeginsWith (Some (wholes kept.now)) trees.now }
    ensures { IfOk result (λ logs.
        (log : Log) × IsOpeningLog (wholes kept.now) log × (logs.items ≡ log ∷ [])) }
{
    let mut logs = Vec::new(alloc);
    let log = opening_log(alloc, kept, trees)?;
    logs.push(log)?;
    Ok(logs)
}

// The state before the first round, in which the nets move that keep no tree.
fn start_from(alloc: Global, graph: &Graph, nets: &[Net], kept: &[Kept]) -> Result<State, NoMemory>
    requires nets { AreNets graph.now nets.now }
    requires few { length nets.now ≤ MOST_NETS }
    requires kept { Fits graph.now nets.now kept.now }
    ensures ready { IfOk result (IsReady graph.now nets.now 0) }
    ensures before { IfOk result (IsBefore graph.now nets.now (Some (wholes kept.now)) 0) }
{
    graph.is_graph();
    let trees = first_trees(alloc, kept)?;
    let prices = first_prices(alloc, graph, &trees)?;
    let logs = first_logs(alloc, kept, &trees)?;
    Ok(State {
        prices,
        moved: left_nets(alloc, kept)?,
        trees,
        logs,
        tallies: Vec::new(alloc),
    })
}

// A kit for each worker.
fn kits_of(alloc: Global, graph: &Graph, workers: u32) -> Result<Vec<Kit>, NoMemory>
    ensures many { IfOk result (λ kits. vec_len kits ≡ workers) }
    ensures kits { IfOk result (λ kits. All (IsKitOf graph.now) kits.items) }
{
    let mut kits = Vec::with_capacity(alloc, workers as usize)?;
    for _worker in 0..workers {
        kits.push(Kit::new(alloc, graph)?)?;
    }
    Ok(kits)
}

// Plays the round behind `round` earlier ones.
fn play_next<G: Gate + Sync, R: Threads + Sync>(
    rt: &R,
    alloc: Global,
    graph: &Graph,
    nets: &[Net],
    round: u32,
    state: &mut State,
    kits: Vec<Kit>,
    gate: &G,
) -> Result<Round, RouteFault>
    requires round { round < 64 }
    requires wires { graph.now.wires ≤ MOST_WIRES }
    requires nets { AreNets graph.now nets.now }
    requires few { length nets.now ≤ MOST_NETS }
    requires ready { IsReady graph.now nets.now round state.old }
    requires workers { (1 ≤ vec_len kits) × (vec_len kits ≤ 8) }
    requires kits { All (IsKitOf graph.now) kits.items }
    ensures played { IfOk result (λ r. IsPlayed graph.now nets.now round state.new r.counts) }
    ensures after { IfOk result (λ r.
        (opening : Opening) → IsBefore graph.now nets.now opening round state.old
        → IsAfter graph.now nets.now opening round state.new r.counts) }
    ensures many { IfOk result (λ r. vec_len r.kits ≡ vec_len kits) }
    ensures kits { IfOk result (λ r. All (IsKitOf graph.now) r.kits.items) }
    ensures stop { IfErr result (λ fault.
        (opening : Opening) (permitted : ℕ) → IsBefore graph.now nets.now opening round state.old
        → IsFaultFrom graph.now nets.now opening permitted fault) }
{
    state.prices.round = round + 1;
    let played = match play(
        rt,
        alloc,
        graph,
        nets,
        &state.prices,
        &state.moved,
        &mut state.trees,
        kits,
        gate,
    ) {
        Ok(played) => played,
        Err(fault) => return Err(fault),
    };
    let log = log_of(
        alloc,
        &state.prices,
        &state.moved,
        &state.trees,
        played.counts.all(),
    )?;
    state.logs.push(log)?;
    Ok(played)
}

// Prepares the round that follows on `round` earlier ones and one more, which ended with an overused wire.
fn prepare<R: Threads + Sync>(
    rt: &R,
    alloc: Global,
    graph: &Graph,
    nets: &[Net],
    round: u32,
    state: &mut State,
    counts: Counts,
    workers: u32,
) -> Result<(), NoMemory>
    requires round { round < 64 }
    requires wires { graph.now.wires ≤ MOST_WIRES }
    requires few { length nets.now ≤ MOST_NETS }
    requires played { IsPlayed graph.now nets.now round state.old counts }
    requires overused { (w : ℕ) × (1 < slice_index counts.closed w) }
    requires workers { (1 ≤ workers) × (workers ≤ 8) }
    ensures ready { OnOk result (IsReady graph.now nets.now (round + 1) state.new) }
    ensures before { OnOk result
        ((opening : Opening) → IsAfter graph.now nets.now opening round state.old counts
        → IsBefore graph.now nets.now opening (round + 1) state.new) }
{
    let (_wires, _nets) = (graph.wires(), nets.len());
    raise(rt, alloc, &mut state.prices.history, &counts, workers)?;
    state.prices.counts.copy_from_slice(counts.all());
    state.moved = movers(alloc, round + 1, &state.prices.counts, &state.trees)?;
    state.tallies.push(counts.tally())?;
    Ok(())
}

// The routes behind the last round, with its logs and tallies.
fn routed(state: State, counts: Counts) -> Result<Routed, NoMemory>
    ensures trees { IfOk result (λ routed. routed.trees.items ≡ state.trees.items) }
    ensures logs { IfOk result (λ routed. routed.logs.items ≡ state.logs.items) }
    ensures tallies { IfOk result (λ routed.
        routed.tallies.items ≡ state.tallies.items ++ counts ∷ []) }
{
    let State {
        prices: _,
        moved: _,
        trees,
        logs,
        mut tallies,
    } = state;
    tallies.push(counts.tally())?;
    Ok(Routed {
        trees,
        logs,
        tallies,
    })
}

// Plays rounds from the state before the first one.
fn play_all<G: Gate + Sync, R: Threads + Sync>(
    rt: &R,
    alloc: Global,
    graph: &Graph,
    nets: &[Net],
    mut state: State,
    rounds: u32,
    workers: u32,
    gate: &G,
) -> Result<Routed, RouteFault>
    requires rounds { (1 ≤ rounds) × (rounds ≤ 64) }
    requires workers { (1 ≤ workers) × (workers ≤ 8) }
    requires wires { graph.now.wires ≤ MOST_WIRES }
    requires few { length nets.now ≤ MOST_NETS }
    requires nets { AreNets graph.now nets.now }
    requires ready { IsReady graph.now nets.now 0 state }
    ensures routed { IfOk result (λ routed.
        (opening : Opening) → IsBefore graph.now nets.now opening 0 state
        → AreRoutedFrom graph.now nets.now opening rounds routed) }
    ensures fault { IfErr result (λ fault.
        (opening : Opening) → IsBefore graph.now nets.now opening 0 state
        → IsFaultFrom graph.now nets.now opening rounds fault) }
{
    let mut kits = kits_of(alloc, graph, workers)?;
    for round in 0..rounds {
        let played = match play_next(rt, alloc, graph, nets, round, &mut state, kits, gate) {
            Ok(played) => played,
            Err(fault) => return Err(fault),
        };
        let Round {
            counts,
            kits: again,
        } = played;
        kits = again;
        if counts.is_free() {
            return Ok(routed(state, counts)?);
        }
        prepare(rt, alloc, graph, nets, round, &mut state, counts, workers)?;
    }
    Err(RouteFault::GaveUp {
        logs: state.logs,
        tallies: state.tallies,
    })
}

/// Routes the nets so that no wire is in two routes, by rounds of negotiated congestion. In the first round
/// all nets move, and no wire has a history. After a round the history of each wire rises by the nets that
/// hold it beyond one, and in the next the nets move that `movers` gives. A net that moves gets its tree in
/// the prices of the moment at which the round began. The first round behind which no wire is overused ends
/// the work, and its routes are the answer.
///
/// Each round is done by `workers` workers, from 1 to 8, each in a thread, on words that they share; they pass the gate with each net that they claim. Where a
/// thread can't be started, its work is done by another one. Routes, logs and faults depend on the graph, the nets and the number of rounds alone; so do the
/// numbers and counts of the tallies, which say what was done on the words of each round.
///
/// From 1 to 64 rounds are permitted, the graph has at most 1,048,576 wires, and there are at most 65,536 nets,
/// whose roots and targets are wires of the graph. Each sink has a target. A net is named by its place in the list.
/// It answers `Unreachable` exactly where a sink has no target that can be reached, with the least such net and the
/// first target of its first such sink, `GaveUp` exactly where each permitted round ends with an overused wire, and `NoMemory` where it finds no
/// memory.
pub fn negotiate<G: Gate + Sync, R: Threads + Sync>(
    rt: &R,
    alloc: Global,
    graph: &Graph,
    nets: &[Net],
    rounds: u32,
    workers: u32,
    gate: &G,
) -> Result<Routed, RouteFault>
    requires rounds { (1 ≤ rounds) × (rounds ≤ 64) }
    requires workers { (1 ≤ workers) × (workers ≤ 8) }
    requires wires { graph.now.wires ≤ MOST_WIRES }
    requires few { length nets.now ≤ MOST_NETS }
    requires nets { AreNets graph.now nets.now }
    ensures routed { IfOk result (AreRouted graph.now nets.now rounds) }
    ensures fault { IfErr result (IsFault graph.now nets.now rounds) }
{
    let state = start(alloc, graph, nets)?;
    play_all(rt, alloc, graph, nets, state, rounds, workers, gate)
}

/// The same from an opening, with what is left of each net: in the first round the nets move that keep no tree, and the others begin with those that
/// they keep. The logs begin with one of number 0, which has the nets that keep a tree; no tally is that of the opening.
///
/// What is asked of the rest is what [`negotiate`] asks. `kept` has one entry for each net. A kept tree leads from the root of its net to its sinks,
/// and no wire is in two. Routes, logs, faults and the numbers and counts of the tallies depend on these entries too, and on no worker.
pub fn negotiate_from<G: Gate + Sync, R: Threads + Sync>(
    rt: &R,
    alloc: Global,
    graph: &Graph,
    nets: &[Net],
    kept: &[Kept],
    rounds: u32,
    workers: u32,
    gate: &G,
) -> Result<Routed, RouteFault>
    requires rounds { (1 ≤ rounds) × (rounds ≤ 64) }
    requires workers { (1 ≤ workers) × (workers ≤ 8) }
    requires wires { graph.now.wires ≤ MOST_WIRES }
    requires few { length nets.now ≤ MOST_NETS }
    requires nets { AreNets graph.now nets.now }
    requires kept { Fits graph.now nets.now kept.now }
    ensures routed { IfOk result
        (AreRoutedFrom graph.now nets.now (Some (wholes kept.now)) rounds) }
    ensures fault { IfErr result (IsFaultFrom graph.now nets.now (Some (wholes kept.now)) rounds) }
{
    let state = start_from(alloc, graph, nets, kept)?;
    play_all(rt, alloc, graph, nets, state, rounds, workers, gate)
}
