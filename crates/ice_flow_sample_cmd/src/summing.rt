//! The summary of a placed and routed design.
ghost use Rattle.std.specs.Prelude.{◌≡◌, IfOk, IfSome, length};
ghost use Rattle.ice_flow_build.specs.Answers.{net_count};
ghost use Rattle.ice_flow_build.specs.Laid.{plan_in};
ghost use Rattle.ice_report.specs.Summary.{summary_text};
ghost use Rattle.ice_flow_sample_cmd.specs.Made.{summary_of};

use ice_base::NoMemory;
use ice_chip::Chip;
use ice_core::Net;
use ice_flow_build::Layout;
use ice_negotiate_defs::Routed;
use ice_place_length::wire_length;
use ice_report::{Summary, sample_report};
use std::alloc::Global;

// What is told of a placed and routed design. Nothing is told of one with more cells or ports than can be numbered.
fn summary_of(
    chip: &Chip,
    number: u64,
    layout: &Layout,
    nets: &[Net],
    routed: &Routed,
) -> Option<Summary>
    requires { length nets.now ≡ net_count chip.now (plan_in layout.now) }
    ensures { IfSome result (λ summary.
        summary ≡ summary_of number chip.now layout.now routed.now) }
{
    let Ok(cells) = u32::try_from(layout.design.cells().len()) else {
        return None;
    };
    let Ok(_ports) = u32::try_from(layout.pads.ports().len()) else {
        return None;
    };
    Some(Summary {
        number,
        cells: u64::from(cells),
        tiles: layout.clusters.list().len() as u64,
        nets: nets.len() as u64,
        rounds: routed.logs.len() as u64,
        length: wire_length(
            chip,
            &layout.clusters,
            &layout.design,
            &layout.placement,
            &layout.pads,
        ),
    })
}

// The text of a summary.
fn text_of(alloc: Global, summary: &Summary) -> Result<Vec<u8>, NoMemory>
    ensures { IfOk result (λ text. text.items ≡ summary_text summary.now) }
{
    let mut text = Vec::new(alloc);
    sample_report(summary, &mut text)?;
    Ok(text)
}

/// The summary of a placed and routed design.
///
/// # Errors
/// Want of memory alone; more cells or ports than can be numbered count as such.
pub fn summary_text(
    alloc: Global,
    chip: &Chip,
    number: u64,
    layout: &Layout,
    nets: &[Net],
    routed: &Routed,
) -> Result<Vec<u8>, NoMemory>
    requires { length nets.now ≡ net_count chip.now (plan_in layout.now) }
    ensures { IfOk result (λ text.
        text.items ≡ summary_text (summary_of number chip.now layout.now routed.now)) }
{
    match summary_of(chip, number, layout, nets, routed) {
        Some(summary) => text_of(alloc, &summary),
        None => Err(NoMemory),
    }
}
