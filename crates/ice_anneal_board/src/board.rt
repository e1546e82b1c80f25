//! The tiles of all clusters and free sites, with the wire length.
ghost use Rattle.std.specs.Prelude.{◌≡◌, ◌≢◌, ℕ, ◌+◌, ◌*◌, ◌^◌, ◌<◌, ◌≤◌, length, slice_index, slice_index_or, OnOk, IfOk, true, false, ◌⊎◌, slice_get};
ghost use Rattle.std.specs.List.{All, Contains, sum, swap};
ghost use Rattle.std.specs.List.Sorted.{IsPermutation};
ghost use Rattle.ice_anneal_board.specs.declared.net.NetNodes.{NetNodes};
ghost use Rattle.ice_anneal_board.specs.Length.{net_length, wire_length, origin};
ghost use Rattle.ice_anneal_board.specs.Wiring.{At, IsWiring};
ghost use Rattle.ice_anneal_board.specs.Board.{IsBoard, IsFree, Keeps, IsLeastFrom, IsLeast, Attempted, LoweredFrom, Lowered};

use crate::length_of_net;
use crate::wiring::Wiring;
use ice_base::{NoMemory, TileAt};
use std::alloc::Global;

/// The tile of each cluster, and after them the free sites' tiles.
#[derive(Drop)]
pub struct Board {
    pub place: Vec<TileAt>,
    pub lengths: Vec<u64>,
    pub total: u64,
}

impl Board {
    /// A placement with its wire length.
    ///
    /// # Errors
    /// Want of memory alone.
    pub fn new(alloc: Global, wiring: &Wiring, place: Vec<TileAt>) -> Result<Board, NoMemory>
        requires { IsWiring (length place.items) wiring.now }
        ensures board { IfOk result (λ b. IsBoard wiring.now b) }
        ensures place { IfOk result (λ b. b.place.items ≡ place.items) }
    {
        let mut lengths = Vec::new(alloc);
        let mut total = 0;
        for net in &wiring.nets {
            let length = length_of_net(&place, &net.nodes);
            total += length;
            lengths.push(length)?;
        }
        Ok(Board {
            place,
            lengths,
            total,
        })
    }

    // Measures some nets anew.
    fn measure(&mut self, wiring: &Wiring, nets: &[usize])
        requires wiring { IsWiring (length self.old.place.items) wiring.now }
        requires nets { All (λ k. k < length wiring.now.nets.items) nets.now }
        requires lengths { length self.old.lengths.items ≡ length wiring.now.nets.items }
        requires bound { All (λ n. n ≤ 131070) self.old.lengths.items }
        requires total { self.old.total ≡ sum self.old.lengths.items }
        ensures place { self.new.place.items ≡ self.old.place.items }
        ensures lengths { length self.new.lengths.items ≡ length wiring.now.nets.items }
        ensures bound { All (λ n. n ≤ 131070) self.new.lengths.items }
        ensures total { self.new.total ≡ sum self.new.lengths.items }
        ensures right { (k : ℕ) (net : NetNodes) → At wiring.now.nets.items k net
            → Contains nets.now k
            ⊎ (slice_index self.old.lengths.items k
            ≡ net_length self.old.place.items net.nodes.items)
            → slice_index self.new.lengths.items k
            ≡ net_length self.old.place.items net.nodes.items }
    {
        for &net in nets {
            let length = length_of_net(&self.place, &wiring.nets[net].nodes);
            self.total = self.total - self.lengths[net] + length;
            self.lengths[net] = length;
        }
    }

    /// Exchanges what stands at two places.
    pub fn exchange(&mut self, wiring: &Wiring, c: usize, d: usize)
        requires wiring { IsWiring (length self.old.place.items) wiring.now }
        requires board { IsBoard wiring.now self.old }
        requires c { c < length self.old.place.items }
        requires d { d < length self.old.place.items }
        ensures board { IsBoard wiring.now self.new }
        ensures place { self.new.place.items ≡ swap self.old.place.items c d }
    {
        self.place.swap(c, d);
        self.measure(wiring, &wiring.touching[c].nets);
        self.measure(wiring, &wiring.touching[d].nets);
    }

    // Exchanges what stands at two places where that lowers the wire length.
    fn attempt(&mut self, wiring: &Wiring, c: usize, d: usize)
        requires wiring { IsWiring (length self.old.place.items) wiring.now }
        requires board { IsBoard wiring.now self.old }
        requires c { c < length self.old.place.items }
        requires d { d < length self.old.place.items }
        ensures board { IsBoard wiring.now self.new }
        ensures attempted { Attempted wiring.now.nets.items self.old self.new c d }
    {
        let before = self.total;
        self.exchange(wiring, c, d);
        if self.total >= before {
            self.exchange(wiring, c, d);
        }
    }

    // Tries to exchange a cluster with each that stands behind it, and with each free site.
    fn sweep_from(&mut self, wiring: &Wiring, free: &[bool], c: usize)
        requires wiring { IsWiring (length self.old.place.items) wiring.now }
        requires board { IsBoard wiring.now self.old }
        requires free { length free.now ≡ length self.old.place.items }
        requires c { c < length free.now }
        requires may { IsFree free.now c }
        ensures board { IsBoard wiring.now self.new }
        ensures lowered { LoweredFrom wiring.now.nets.items free.now self.old self.new
            c (length free.now) }
    {
        for d in c + 1..free.len() {
            if free[d] {
                self.attempt(wiring, c, d);
            }
        }
    }

    // Tries all exchanges of one of the first clusters.
    fn sweep(&mut self, wiring: &Wiring, free: &[bool], count: usize)
        requires wiring { IsWiring (length self.old.place.items) wiring.now }
        requires board { IsBoard wiring.now self.old }
        requires free { length free.now ≡ length self.old.place.items }
        requires count { count ≤ length free.now }
        ensures board { IsBoard wiring.now self.new }
        ensures lowered { Lowered wiring.now.nets.items free.now self.old self.new count }
    {
        for c in 0..count {
            if free[c] {
                self.sweep_from(wiring, free, c);
            }
        }
    }

    /// Exchanges until no exchange lowers the wire length.
    pub fn descend(&mut self, wiring: &Wiring, free: &[bool], count: usize)
        requires wiring { IsWiring (length self.old.place.items) wiring.now }
        requires board { IsBoard wiring.now self.old }
        requires free { length free.now ≡ length self.old.place.items }
        requires count { count ≤ length free.now }
        ensures board { IsBoard wiring.now self.new }
        ensures keeps { Keeps free.now self.old.place.items self.new.place.items }
        ensures falls { self.new.total ≤ self.old.total }
        ensures least { IsLeast wiring.now.nets.items free.now self.new.place.items count }
    {
        let mut before = self.total;
        self.sweep(wiring, free, count);
        while self.total < before {
            before = self.total;
            self.sweep(wiring, free, count);
        }
    }
}
