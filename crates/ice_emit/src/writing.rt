//! The bit writer.
ghost use Rattle.std.specs.Prelude.{◌≡◌, length, map, IfOk};
ghost use Rattle.ice_bits.specs.Configuration.{bits_of};
ghost use Rattle.ice_decode.specs.Faults.{HasNoLoop};
ghost use Rattle.ice_graph.specs.Leading.{route_of};
ghost use Rattle.ice_emit_nets.specs.Plans.{plan_of};
ghost use Rattle.ice_place_defs.specs.Plan.{plan_in};
ghost use Rattle.ice_pads.specs.Globals.{numbers};
ghost use Rattle.ice_emit_defs.specs.Functions.{settings};
ghost use Rattle.ice_emit_defs.specs.Rams.{AreFormed};
ghost use Rattle.ice_emit_meaning_laws.specs.Feeds.{FaultsAreRings, IsRingless};
ghost use Rattle.ice_emit_rows_laws.specs.Wanted.{IsWired};
ghost use Rattle.ice_emit_defs.specs.Realised.{Realises};
ghost use Rattle.ice_emit_defs.specs.Routed.{AreTrees};
ghost use Rattle.ice_emit_defs.specs.Written.{held_by, wanted_rows, extras_among, IsWritten};
ghost use Rattle.ice_emit.specs.Placed.{IsPlacedOn};
ghost use Rattle.ice_emit.specs.Routed.{IsRouted, held_in};
ghost use Rattle.ice_emit.specs.Views.{AreBitsWith};
ghost use Rattle.ice_emit_settings.specs.Views.{views, switches};

use crate::clusters::push_clusters;
use crate::contents::{add_contents, are_formed};
use crate::extras::add_extras;
use crate::links::push_links;
use crate::owners::owners_of;
use crate::routed::Routed;
use crate::rows::push_trees;
use ice_base::{NoMemory, RowNo};
use ice_bits::{Bits, blank};
use ice_bits_rows::Index;
use ice_cells::{Clusters, Design};
use ice_chip::Chip;
use ice_cluster::laws::cells_stand_in_one_slot;
use ice_emit_bits::{Setting, set_all, turn_all_on};
use ice_emit_led_laws::laws::roots_are_led_to_pins;
use ice_emit_meaning_laws::laws::{
    bits_have_no_loop, bits_realise_their_design, faulty_bits_have_a_ring,
};
use ice_emit_nets::{placed_of, wires_of};
use ice_emit_rows_laws::laws::wanted_rows_drive;
use ice_emit_set_laws::laws::designs_are_set;
use ice_emit_settings::{push_buffers, push_enables, push_ports, push_rams};
use ice_graph::Tree;
use ice_pads::Pads;
use ice_place::Placement;
use ice_place_defs::Placed;
use ice_ram::Ram;
use std::alloc::Global;

// The rows of an indexed chip that are wanted: those of the trees, and those that carry runs.
fn rows_of(
    alloc: Global,
    index: &Index<'_>,
    placed: &Placed<'_>,
    trees: &[Tree],
) -> Result<Vec<RowNo>, NoMemory>
    ensures { IfOk result (λ rows. switches index.now.chip.now rows.items
        ≡ wanted_rows index.now.chip.now (plan_in placed.now) (map route_of trees.now)) }
{
    let mut rows = Vec::new(alloc);
    push_trees(&mut rows, trees)?;
    push_links(
        &mut rows,
        index,
        placed.design.cells(),
        placed.tiles,
        placed.clusters,
    )?;
    Ok(rows)
}

// The settings of cells, ports, inputs, column buffers and block RAMs.
#[tactic(auto, using(crate::proofs::Wanting::settings_are))]
fn settings_of(
    alloc: Global,
    routed: &Routed<'_>,
    pullups: &[bool],
    rams: &[Ram],
    rows: &[RowNo],
) -> Result<Vec<Setting>, NoMemory>
    requires { IsRouted routed.now }
    ensures { IfOk result (λ made.
        views made.items ≡ settings routed.now.placed.chip.now (plan_in routed.now.placed)
        pullups.now rams.now (held_in routed.now) (switches routed.now.placed.chip.now rows.now)) }
{
    let chip = routed.placed.chip;
    let ports = routed.placed.design.pads();
    let mut made = Vec::new(alloc);
    push_clusters(&mut made, routed)?;
    push_ports(&mut made, chip, routed.placed.ports, pullups, ports)?;
    push_enables(alloc, &mut made, chip, routed.placed.ports, ports)?;
    push_buffers(alloc, &mut made, chip, rows)?;
    push_rams(alloc, &mut made, chip, rams)?;
    Ok(made)
}

// The same, of trees that are apart.
fn settings_in(
    alloc: Global,
    placed: &Placed<'_>,
    pullups: &[bool],
    rams: &[Ram],
    trees: &[Tree],
    rows: &[RowNo],
) -> Result<Vec<Setting>, NoMemory>
    requires placed { IsPlacedOn placed.now.chip.now (plan_in placed.now) pullups.now
        (length rams.now) }
    requires trees { AreTrees placed.now.chip.now (plan_in placed.now) (map route_of trees.now) }
    ensures { IfOk result (λ made.
        views made.items ≡ settings placed.now.chip.now (plan_in placed.now) pullups.now rams.now
        (held_by placed.now.chip.now (plan_in placed.now) (map route_of trees.now))
        (switches placed.now.chip.now rows.now)) }
{
    cells_stand_in_one_slot();
    let wires = wires_of(alloc, placed)?;
    let owners = owners_of(alloc, placed.chip.wires(), trees)?;
    let routed = Routed {
        placed: *placed,
        wires: &wires,
        trees,
        owners: owners.as_slice(),
    };
    settings_of(alloc, &routed, pullups, rams, rows)
}

// Bits of a chip of which these rows and settings are set, and the extra bits of direct global buffers, and no others; and the words of
// these block RAMs.
fn bits_with(
    alloc: Global,
    chip: &Chip,
    rows: &[RowNo],
    made: &[Setting],
    pads: &Pads,
    rams: &[Ram],
) -> Result<Bits, NoMemory>
    requires { AreFormed rams.now }
    ensures { IfOk result (AreBitsWith chip.now rows.now made.now
        (extras_among chip.now pads.now.globals pads.now.direct numbers) rams.now) }
{
    chip.is_chip();
    let mut bits = blank(alloc, chip)?;
    turn_all_on(&mut bits, chip, rows);
    set_all(&mut bits, chip, made);
    add_extras(&mut bits, chip, pads.globals(), pads.direct())?;
    add_contents(alloc, &mut bits, chip, rams)?;
    Ok(bits)
}

/// The bits of a placed and routed design on an indexed chip, as [`emit`] makes them.
///
/// # Errors
/// Want of memory alone; more than 4,294,967,295 trees count as such.
pub fn emit_by(
    alloc: Global,
    index: &Index<'_>,
    design: &Design,
    clusters: &Clusters,
    placement: &Placement,
    pads: &Pads,
    rams: &[Ram],
    trees: &[Tree],
) -> Result<Bits, NoMemory>
    requires placed { IsPlacedOn index.now.chip.now
        (plan_of design.now clusters.now placement.now pads.now) pads.now.pullups
        (length rams.now) }
    requires trees { AreTrees index.now.chip.now
        (plan_of design.now clusters.now placement.now pads.now) (map route_of trees.now) }
    ensures written { IfOk result
        (IsWritten index.now.chip.now (plan_of design.now clusters.now placement.now pads.now)
        pads.now.pullups rams.now (map route_of trees.now)) }
    ensures driven { IfOk result (λ bits.
        IsWired index.now.chip.now (bits_of bits) (wanted_rows index.now.chip.now
        (plan_of design.now clusters.now placement.now pads.now) (map route_of trees.now))) }
    ensures loopless { IfOk result (λ bits.
        IsRingless index.now.chip.now → HasNoLoop index.now.chip.now (bits_of bits) bits.extras) }
    ensures ring { IfOk result (λ bits.
        FaultsAreRings index.now.chip.now (bits_of bits) bits.extras) }
    ensures realised { IfOk result (λ bits. HasNoLoop index.now.chip.now (bits_of bits) bits.extras
        → Realises index.now.chip.now (plan_of design.now clusters.now placement.now pads.now) rams.now
        (wanted_rows index.now.chip.now (plan_of design.now clusters.now placement.now pads.now)
        (map route_of trees.now))
        (bits_of bits) bits.extras) }
{
    roots_are_led_to_pins(index.chip);
    designs_are_set(index.chip);
    wanted_rows_drive(index.chip);
    bits_have_no_loop(index.chip);
    faulty_bits_have_a_ring(index.chip);
    bits_realise_their_design(index.chip);
    are_formed(rams);
    let placed = placed_of(index.chip, design, clusters, placement, pads);
    let rows = rows_of(alloc, index, &placed, trees)?;
    let made = settings_in(alloc, &placed, pads.pullups(), rams, trees, rows.as_slice())?;
    let bits = bits_with(
        alloc,
        index.chip,
        rows.as_slice(),
        made.as_slice(),
        pads,
        rams,
    )?;
    Ok(bits)
}

/// The bits of a placed and routed design: of each tree's rows, and of the rows that carry runs into last inputs and across tiles; of
/// cells, their tables rewired to the inputs at which their signals arrive; of clocks' edges and carries into runs; of the pads'
/// types and pull-ups, of inputs that nothing reads, and of the column buffers that globals pass; of block RAMs, each of which stands at
/// the chip's site of its number, and of the other sites, which are switched off; and the extra bits of the globals that direct global
/// buffers have, by rising global. No other bit is set. Behind them stand the words of the block RAMs.
///
/// Each wanted row drives its wire, and no other wire has a driver. Decoding these bits gives a fault only where globals of the chip feed
/// each other in a ring, which none do where each is fed in an IO tile. Where they have no loop the ports' pads show for every list of
/// levels what the design shows, and every other pad is off.
///
/// # Errors
/// Want of memory alone; more than 4,294,967,295 trees count as such.
pub fn emit(
    alloc: Global,
    chip: &Chip,
    design: &Design,
    clusters: &Clusters,
    placement: &Placement,
    pads: &Pads,
    rams: &[Ram],
    trees: &[Tree],
) -> Result<Bits, NoMemory>
    requires placed { IsPlacedOn chip.now
        (plan_of design.now clusters.now placement.now pads.now) pads.now.pullups
        (length rams.now) }
    requires trees { AreTrees chip.now (plan_of design.now clusters.now placement.now pads.now)
        (map route_of trees.now) }
    ensures written { IfOk result
        (IsWritten chip.now (plan_of design.now clusters.now placement.now pads.now)
        pads.now.pullups rams.now (map route_of trees.now)) }
    ensures driven { IfOk result (λ bits. IsWired chip.now (bits_of bits) (wanted_rows chip.now
        (plan_of design.now clusters.now placement.now pads.now) (map route_of trees.now))) }
    ensures loopless { IfOk result (λ bits.
        IsRingless chip.now → HasNoLoop chip.now (bits_of bits) bits.extras) }
    ensures ring { IfOk result (λ bits. FaultsAreRings chip.now (bits_of bits) bits.extras) }
    ensures realised { IfOk result (λ bits. HasNoLoop chip.now (bits_of bits) bits.extras
        → Realises chip.now (plan_of design.now clusters.now placement.now pads.now) rams.now
        (wanted_rows chip.now (plan_of design.now clusters.now placement.now pads.now)
        (map route_of trees.now))
        (bits_of bits) bits.extras) }
{
    let index = Index::new(alloc, chip)?;
    emit_by(
        alloc, &index, design, clusters, placement, pads, rams, trees,
    )
}
