//! The placed design of a netlist.
ghost use Rattle.std.specs.Prelude.{◌≡◌, IfOk, IfErr};
ghost use Rattle.ice_cells.specs.Clusterings.{IsClustering};
ghost use Rattle.ice_cells.specs.Clusters.{clusters_of};
ghost use Rattle.ice_cells.specs.Ranks.{clusters_by};
ghost use Rattle.ice_cells.specs.Runs.{design_of};
ghost use Rattle.ice_flow_build.specs.Laid.{IsLaidOut, IsSettled, task_of};
ghost use Rattle.ice_flow_build.specs.Stages.{IsPlaceFault, IsLayFault};
ghost use Rattle.ice_flow_build.specs.declared.answer.BuildFault.TheVariants.{NoMemory as out_of_memory};

use crate::answer::{BuildFault, Layout};
use ice_anneal_arrangement::{Ordered, Settled, settle};
use ice_bits_rows::Index;
use ice_carry::runs;
use ice_cells::{Clusters, Design};
use ice_check::Sound;
use ice_cluster::cluster;
use ice_pack::pack;
use ice_pads::{Closing, Pads, assign_by};
use ice_pcf::Pcf;
use ice_place::first_place;
use ice_sites::sites_by;
use std::alloc::Global;

/// The design of a netlist, its runs made.
///
/// # Errors
/// Want of memory.
pub fn design_of(alloc: Global, sound: &Sound) -> Result<Design, BuildFault>
    ensures design { IfOk result (λ design. design ≡ design_of sound.now) }
    ensures fault { IfErr result (λ fault. fault ≡ out_of_memory) }
{
    let packed = pack(alloc, sound)?;
    let design = runs(alloc, packed)?;
    Ok(design)
}

// Clusters by ranks, and a placement of them that is no longer than the first one, and that no exchange and no move makes shorter.
fn place(
    alloc: Global,
    index: &Index<'_>,
    clusters: Clusters,
    design: &Design,
    pads: &Pads,
    seed: u64,
) -> Result<Settled, BuildFault>
    requires clusters { clusters ≡ clusters_of design.now }
    requires clustering { IsClustering design.now clusters }
    ensures clusters { IfOk result (λ made.
        made.ordered.clusters ≡ clusters_by made.ordered.ranks design.now) }
    ensures placed { IfOk result (λ made.
        IsSettled index.now.chip.now made.ordered.clusters design.now pads.now made.placement) }
    ensures fault { IfErr result (IsPlaceFault index.now.chip.now design.now) }
{
    let sites = sites_by(alloc, index)?;
    let first = first_place(alloc, &sites, &clusters, design)?;
    let made = settle(
        alloc, index.chip, &sites, design, clusters, first, pads, seed,
    )?;
    Ok(made)
}

// The placed design, of its clusters in the order of the design, and its pads.
fn lay(
    alloc: Global,
    index: &Index<'_>,
    design: Design,
    clusters: Clusters,
    pads: Pads,
    seed: u64,
) -> Result<Layout, BuildFault>
    requires clusters { clusters ≡ clusters_of design }
    requires clustering { IsClustering design clusters }
    ensures design { IfOk result (λ layout. layout.design ≡ design) }
    ensures clusters { IfOk result (λ layout. layout.clusters ≡ clusters_by layout.ranks design) }
    ensures pads { IfOk result (λ layout. layout.pads ≡ pads) }
    ensures placed { IfOk result (λ layout.
        IsSettled index.now.chip.now layout.clusters design pads layout.placement) }
    ensures fault { IfErr result (IsPlaceFault index.now.chip.now design) }
{
    let Settled { ordered, placement } = place(alloc, index, clusters, &design, &pads, seed)?;
    let Ordered { ranks, clusters } = ordered;
    Ok(Layout {
        design,
        ranks,
        clusters,
        pads,
        placement,
    })
}

/// The placed design of a netlist on an indexed chip: packed, its runs made, in clusters by ranks, with the assigned pads, and placed
/// on the chip's sites.
///
/// # Errors
/// The fault of the pins, then that of the places; want of memory.
pub fn lay_out(
    alloc: Global,
    index: &Index<'_>,
    name: &[u8],
    pcf: &Pcf,
    sound: &Sound,
    seed: u64,
) -> Result<Layout, BuildFault>
    ensures laid { IfOk result (IsLaidOut (task_of index.now.chip.now name.now pcf.now sound.now)) }
    ensures fault { IfErr result
        (IsLayFault (task_of index.now.chip.now name.now pcf.now sound.now)) }
{
    let design = design_of(alloc, sound)?;
    let clusters = cluster(alloc, &design)?;
    let closing = Closing::open(sound.netlist());
    let pads = assign_by(alloc, index, name, pcf, sound.netlist(), closing, &design)?;
    let layout = lay(alloc, index, design, clusters, pads, seed)?;
    Ok(layout)
}
