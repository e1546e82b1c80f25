//! Nets, collected from the wires and the sinks of roots.
ghost use Rattle.std.specs.Prelude.{◌≡◌, ◌++◌, is_some, slice_get, IfOk, OnOk};
ghost use Rattle.ice_emit_nets.specs.Collected.{one_net, kind_nets, all_nets, bare_nets, AreNumbered};
ghost use Rattle.ice_emit_nets.specs.Rooted.{wires_in};
ghost use Rattle.ice_emit_nets.specs.Sorted.{sorted_in};

use crate::lists::Lists;
use crate::wires::DrivenWires;
use ice_base::{NetNo, NoMemory, Sink, WireNo, to_u32};
use ice_cells::Items;
use ice_core::Net;
use std::alloc::Global;

// Whether there is a sink.
fn is_read(sinks: &[Sink]) -> bool
    ensures { result ≡ is_some (slice_get sinks.now 0) }
{
    match sinks.get(0) {
        Some(_) => true,
        None => false,
    }
}

// Adds the net of a root, if it has a wire and sinks.
#[tactic(auto, using(crate::proofs::Numbers::numbered_more, crate::proofs::Numbers::net_more))]
fn push_net(nets: &mut Vec<Net>, wire: Option<WireNo>, sinks: Items<Sink>) -> Result<(), NoMemory>
    requires { AreNumbered nets.old.items }
    ensures nets { OnOk result
        (bare_nets nets.new.items ≡ bare_nets nets.old.items ++ one_net wire sinks) }
    ensures numbers { OnOk result (AreNumbered nets.new.items) }
{
    let Some(root) = wire else {
        return Ok(());
    };
    if !is_read(sinks.as_slice()) {
        return Ok(());
    }
    let net = NetNo(to_u32(nets.len())?);
    let sinks = sinks.into_vec();
    nets.push(Net { net, root, sinks })?;
    Ok(())
}

// Adds the nets of roots of one kind.
fn push_nets(
    nets: &mut Vec<Net>,
    wires: &[Option<WireNo>],
    lists: Vec<Items<Sink>>,
) -> Result<(), NoMemory>
    requires { AreNumbered nets.old.items }
    ensures nets { OnOk result (bare_nets nets.new.items
        ≡ bare_nets nets.old.items ++ kind_nets wires.now lists.items) }
    ensures numbers { OnOk result (AreNumbered nets.new.items) }
{
    let mut rest = lists.into_iter();
    for wire in wires {
        let Some(sinks) = rest.next() else {
            return Ok(());
        };
        push_net(nets, *wire, sinks)?;
    }
    Ok(())
}

/// The nets of all roots that have a wire and sinks: of pads, of cells and of global buffers, numbered in order.
pub fn collect(alloc: Global, wires: &DrivenWires, lists: Lists) -> Result<Vec<Net>, NoMemory>
    ensures nets { IfOk result (λ nets.
        bare_nets nets.items ≡ all_nets (wires_in wires.now) (sorted_in lists)) }
    ensures numbers { IfOk result (λ nets. AreNumbered nets.items) }
{
    let mut nets = Vec::new(alloc);
    push_nets(&mut nets, wires.pads.as_slice(), lists.pads)?;
    push_nets(&mut nets, wires.cells.as_slice(), lists.cells)?;
    push_nets(&mut nets, wires.globals.as_slice(), lists.globals)?;
    Ok(nets)
}
