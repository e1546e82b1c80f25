//! Prices of wires.
ghost use Rattle.std.specs.Prelude.{◌≡◌, ◌+◌, ◌-◌, ◌*◌, ◌<◌, ◌≤◌, ℕ, length, slice_index};
ghost use Rattle.ice_core.specs.Congestion.{ArePrices, price};

use crate::limits::{MOST_FACTOR, MOST_HISTORY, MOST_OTHERS, MOST_PRICE, MOST_WIRES};
use ice_base::WireNo;

/// What the wires cost one net in one round.
#[derive(Drop)]
pub struct Prices {
    /// The number of the round, from 1 to 64.
    pub round: u32,
    /// How far each wire was overused in the rounds before, at most 4,128,705 each.
    pub history: Vec<u64>,
    /// How many other nets hold each wire as the round begins, at most 65,535 each.
    pub others: Vec<u32>,
}

impl Prices {
    /// The price of a wire: `(1 + history) * (1 + (round - 1) * others)`, from 1 to 17,046,213,234,436.
    pub fn of(&self, wire: WireNo) -> u64
        requires prices { ArePrices self.now }
        requires wire { wire.0 < length self.now.history.items }
        ensures price { result ≡ price self.now wire.0 }
        ensures positive { 1 ≤ result }
        ensures bound { result ≤ MOST_PRICE }
    {
        price_at(self.round, &self.history, &self.others, wire.0 as usize)
    }
}

// The price of a wire, from the histories and the numbers of others of all wires.
#[tactic(auto, using(crate::proofs::Bounds::factor_fits))]
fn price_at(round: u32, history: &[u64], others: &[u32], wire: usize) -> u64
    requires round { (1 ≤ round) × (round ≤ 64) }
    requires lengths { length others.now ≡ length history.now }
    requires wire { (wire < length history.now) × (length history.now ≤ MOST_WIRES) }
    requires history { (w : ℕ) → slice_index history.now w ≤ MOST_HISTORY }
    requires others { (w : ℕ) → slice_index others.now w ≤ MOST_OTHERS }
    ensures price { result
        ≡ (1 + slice_index history.now wire) * (1 + (round - 1) * slice_index others.now wire) }
    ensures positive { 1 ≤ result }
    ensures bound { result ≤ MOST_PRICE }
{
    let weight = (round - 1) as u64 * others[wire] as u64;
    product(1 + history[wire], 1 + weight)
}

// The product of two numbers that are at most 4,128,706.
#[tactic(auto, using(crate::proofs::Bounds::product_low, crate::proofs::Bounds::product_high))]
fn product(one: u64, other: u64) -> u64
    requires one { (1 ≤ one) × (one ≤ MOST_FACTOR) }
    requires other { (1 ≤ other) × (other ≤ MOST_FACTOR) }
    ensures value { result ≡ one * other }
    ensures positive { 1 ≤ result }
    ensures bound { result ≤ MOST_PRICE }
{
    one * other
}
