//! What one worker needs, and what it made.
ghost use Rattle.std.specs.Prelude.{◌≡◌, [], length, IfOk};
ghost use Rattle.ice_graph.specs.Network.{Network};
ghost use Rattle.ice_worker.specs.Kits.{IsKitOf, made_by};

use ice_base::NoMemory;
use ice_core::Prices;
use ice_graph::{Graph, Tree};
use ice_path::Scratch;
use std::alloc::Global;
use std::mem;

/// What one worker needs: room for searches in one graph, and prices of its own. It keeps the trees that the worker made, each with the number of its
/// task, by rising number. It serves in any number of rounds.
#[derive(Drop)]
pub struct Kit {
    pub(crate) scratch: Scratch,
    pub(crate) prices: Prices,
    pub(crate) trees: Vec<(u32, Tree)>,
}

impl Kit {
    /// A kit for this graph, without a tree. It answers `NoMemory` where it finds no memory for it.
    pub fn new(alloc: Global, graph: &Graph) -> Result<Kit, NoMemory>
        ensures kit { IfOk result (IsKitOf graph.now) }
        ensures trees { IfOk result (λ kit. made_by kit ≡ []) }
    {
        let prices = room_for_prices(alloc, graph.wires())?;
        let scratch = Scratch::new(alloc, graph)?;
        Ok(Kit {
            scratch,
            prices,
            trees: Vec::new(alloc),
        })
    }

    /// The trees that the worker made when it worked last, each with the number of its task.
    pub fn trees(&self) -> &[(u32, Tree)]
        ensures { result.now ≡ made_by self.now }
    {
        &self.trees
    }

    /// Takes these trees out of the kit, which has none then, and serves in further rounds. Takes no memory.
    pub fn take_trees(&mut self, alloc: Global) -> Vec<(u32, Tree)>
        ensures trees { result.items ≡ made_by self.old }
        ensures none { made_by self.new ≡ [] }
        ensures kit { (graph : Network) → IsKitOf graph self.old → IsKitOf graph self.new }
    {
        mem::replace(&mut self.trees, Vec::new(alloc))
    }
}

// Prices with room for so many wires. What they are is set as a round begins.
fn room_for_prices(alloc: Global, wires: u32) -> Result<Prices, NoMemory>
    ensures histories { IfOk result (λ prices. length prices.history.items ≡ wires) }
    ensures others { IfOk result (λ prices. length prices.others.items ≡ wires) }
{
    let history = vec![in alloc; 0u64; wires as usize]?;
    let others = vec![in alloc; 0u32; wires as usize]?;
    Ok(Prices {
        round: 1,
        history,
        others,
    })
}
