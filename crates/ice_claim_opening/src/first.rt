//! The trees of all nets at price 1, and their wires.
ghost use Rattle.std.specs.Prelude.{◌≡◌, ◌<◌, ◌≤◌, ℕ, length, map, IfOk};
ghost use Rattle.ice_core.specs.Congestion.{ArePrices, price};
ghost use Rattle.ice_core.specs.Routes.{lists_of};
ghost use Rattle.ice_negotiate_defs.specs.Rounds.{AreNets};
ghost use Rattle.ice_negotiate_defs.specs.Trees.{AreSinks};
ghost use Rattle.ice_path.specs.Room.{IsFor};
ghost use Rattle.ice_claim_opening.specs.First.{AreFirst, IsFirst, kept_wires, wires_by_number};

use ice_base::{NoMemory, WireNo};
use ice_core::{MOST_WIRES, Net, Prices};
use ice_graph::Graph;
use ice_negotiate_defs::{Kept, TreeStop, tree_of};
use ice_path::Scratch;
use std::alloc::Global;

// The prices of a first round in which nobody has a wire.
#[tactic(auto, using(crate::proofs::Pricing::open_prices, crate::proofs::Pricing::each_costs_1))]
fn first_prices(alloc: Global, wires: u32) -> Result<Prices, NoMemory>
    requires { wires ≤ MOST_WIRES }
    ensures prices { IfOk result ArePrices }
    ensures wires { IfOk result (λ prices. length prices.history.items ≡ wires) }
    ensures one { IfOk result (λ prices. (w : ℕ) → price prices w ≡ 1) }
{
    let history = vec![in alloc; 0u64; wires as usize]?;
    let others = vec![in alloc; 0u32; wires as usize]?;
    Ok(Prices {
        round: 1,
        history,
        others,
    })
}

// A net's tree, or where it is cut.
fn first_of(
    alloc: Global,
    graph: &Graph,
    prices: &Prices,
    net: &Net,
    scratch: &mut Scratch,
) -> Result<Kept, NoMemory>
    requires prices { ArePrices prices.now }
    requires wires { length prices.now.history.items ≡ graph.now.wires }
    requires one { (w : ℕ) → price prices.now w ≡ 1 }
    requires root { net.now.root.0 < graph.now.wires }
    requires sinks { AreSinks graph.now.wires net.now.sinks.items }
    requires scratch { IsFor graph.now scratch.old }
    ensures first { IfOk result (IsFirst graph.now net.now) }
    ensures scratch { IsFor graph.now scratch.new }
{
    match tree_of(alloc, graph, prices, net.root, &net.sinks, scratch) {
        Ok(tree) => Ok(Kept::Whole(tree)),
        Err(TreeStop::Unreachable { sink }) => Ok(Kept::Cut(sink)),
        Err(TreeStop::NoMemory) => Err(NoMemory),
    }
}

// The tree of each net at price 1 for every wire, or where it is cut.
pub fn first_trees(alloc: Global, graph: &Graph, nets: &[Net]) -> Result<Vec<Kept>, NoMemory>
    requires wires { graph.now.wires ≤ MOST_WIRES }
    requires nets { AreNets graph.now nets.now }
    ensures { IfOk result (λ kept. AreFirst graph.now nets.now kept.items) }
{
    let prices = first_prices(alloc, graph.wires())?;
    let mut scratch = Scratch::new(alloc, graph)?;
    let mut kept = Vec::with_capacity(alloc, nets.len())?;
    for net in nets {
        kept.push(first_of(alloc, graph, &prices, net, &mut scratch)?)?;
    }
    Ok(kept)
}

// The wires of a net's tree, and none of a net that is cut.
fn wires_of(alloc: Global, kept: &Kept) -> Result<Vec<WireNo>, NoMemory>
    ensures { IfOk result (λ list. list.items ≡ kept_wires kept.now) }
{
    match kept {
        Kept::Whole(tree) => Ok(Vec::from_slice(alloc, &tree.wires)?),
        _ => Ok(Vec::new(alloc)),
    }
}

// The same of each net.
pub fn first_lists(alloc: Global, kept: &[Kept]) -> Result<Vec<Vec<WireNo>>, NoMemory>
    ensures { IfOk result (λ lists. lists_of lists.items ≡ map wires_by_number kept.now) }
{
    let mut lists = Vec::with_capacity(alloc, kept.len())?;
    for one in kept {
        lists.push(wires_of(alloc, one)?)?;
    }
    Ok(lists)
}
