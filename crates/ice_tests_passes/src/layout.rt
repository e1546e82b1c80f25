//! The design of a netlist on its first placement, shown as it is made.
ghost use Rattle.std.specs.Prelude.{◌≡◌, IfOk};
ghost use Rattle.ice_flow_build.specs.Laid.{plan_in};
ghost use Rattle.ice_cells.specs.Clusterings.{IsClustering};
ghost use Rattle.ice_cells.specs.Clusters.{clusters_of};
ghost use Rattle.ice_cells.specs.Ranks.{clusters_by};
ghost use Rattle.ice_cells.specs.Runs.{design_of};
ghost use Rattle.ice_emit.specs.Placed.{IsPlacedOn};
ghost use Rattle.ice_place.specs.Place.{chunks_of};
ghost use Rattle.ice_sites.specs.Legal.{IsLegal};
ghost use Rattle.ice_sites.specs.Stretches.{stretches_of};

use crate::design::{say_clusters, say_design};
use crate::placed::say_pads;
use crate::text::Text;
use ice_anneal_arrangement::{Ordered, in_own_order};
use ice_cells::{Clusters, Design};
use ice_check::Sound;
use ice_chip::Chip;
use ice_cluster::cluster;
use ice_flow_build::laws::designs_stand_on_their_chip;
use ice_flow_build::{BuildFault, Layout, design_of};
use ice_pads::{Closing, Pads, assign};
use ice_pcf::Pcf;
use ice_place::{PlaceFault, Placement, first_place};
use ice_sites::sites_of;
use std::alloc::Global;

/// A packed design and its clusters.
#[derive(Drop)]
pub struct Packed {
    /// The design.
    pub design: Design,
    /// The clusters.
    pub clusters: Clusters,
}

/// Shows the packed design of a netlist and its clusters.
///
/// # Errors
/// Want of memory.
pub fn pack(text: &mut Text, alloc: Global, sound: &Sound) -> Result<Packed, BuildFault>
    ensures design { IfOk result (λ packed. packed.design ≡ design_of sound.now) }
    ensures clusters { IfOk result (λ packed. packed.clusters ≡ clusters_of packed.design) }
    ensures clustering { IfOk result (λ packed. IsClustering packed.design packed.clusters) }
{
    let design = design_of(alloc, sound)?;
    say_design(text, &design);
    let clusters = cluster(alloc, &design)?;
    say_clusters(text, clusters.list());
    Ok(Packed { design, clusters })
}

// The first placement of the clusters of a design on the sites of a chip.
fn first_placement(
    alloc: Global,
    chip: &Chip,
    clusters: &Clusters,
    design: &Design,
) -> Result<Placement, PlaceFault>
    requires { IsClustering design.now clusters.now }
    ensures { IfOk result (λ placement.
        IsLegal (stretches_of chip.now) (chunks_of clusters.now.list) placement) }
{
    let sites = sites_of(alloc, chip)?;
    let placement = first_place(alloc, &sites, clusters, design)?;
    Ok(placement)
}

// A packed design on its first placement, with its pads.
fn place(alloc: Global, chip: &Chip, packed: Packed, pads: Pads) -> Result<Layout, BuildFault>
    requires clusters { packed.clusters ≡ clusters_of packed.design }
    requires clustering { IsClustering packed.design packed.clusters }
    ensures design { IfOk result (λ layout. layout.design ≡ packed.design) }
    ensures clusters { IfOk result (λ layout.
        layout.clusters ≡ clusters_by layout.ranks packed.design) }
    ensures pads { IfOk result (λ layout. layout.pads ≡ pads) }
    ensures legal { IfOk result (λ layout.
        IsLegal (stretches_of chip.now) (chunks_of layout.clusters.list) layout.placement) }
{
    let Packed { design, clusters } = packed;
    let placement = first_placement(alloc, chip, &clusters, &design)?;
    let Ordered { ranks, clusters } = in_own_order(alloc, &design, clusters);
    Ok(Layout {
        design,
        ranks,
        clusters,
        pads,
        placement,
    })
}

/// Shows the packed design of a netlist, its clusters and, by pin constraints, its pads in the package of that name, and gives it on its
/// first placement.
///
/// # Errors
/// The fault of the pins, then that of the places; want of memory.
pub fn lay(
    text: &mut Text,
    alloc: Global,
    chip: &Chip,
    name: &[u8],
    pcf: &Pcf,
    sound: &Sound,
) -> Result<Layout, BuildFault>
    ensures { IfOk result (λ layout.
        IsPlacedOn chip.now (plan_in layout) layout.pads.pullups 0) }
{
    designs_stand_on_their_chip(chip, sound);
    let packed = pack(text, alloc, sound)?;
    let closing = Closing::open(sound.netlist());
    let pads = assign(
        alloc,
        chip,
        name,
        pcf,
        sound.netlist(),
        closing,
        &packed.design,
    )?;
    say_pads(text, &pads);
    let layout = place(alloc, chip, packed, pads)?;
    Ok(layout)
}
