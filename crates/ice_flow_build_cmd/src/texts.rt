//! The texts that are written: that of the bits, and the reports that are asked for.
ghost use Rattle.std.specs.Prelude.{◌≡◌, ◌++◌, true, length, Ok, IfOk, OnOk};
ghost use Rattle.ice_flow_frame.specs.Ends.{text_of};
ghost use Rattle.ice_asc.specs.Grammar.{asc_in};
ghost use Rattle.ice_asc.specs.Text.{asc_text};
ghost use Rattle.ice_bits.specs.Grids.{IsOf};
ghost use Rattle.ice_chip.specs.Lookups.{package_of};
ghost use Rattle.ice_report.specs.RouteReport.{route_text};
ghost use Rattle.ice_flow_build_cmd.specs.Ending.{parting_text};
ghost use Rattle.ice_flow_build_cmd.specs.Reports.{pins_text, text_asked, reports_of, texts_of};
ghost use Rattle.ice_flow_words.specs.Views.{build_view};

use ice_asc::write_asc;
use ice_base::{NoMemory, to_u32};
use ice_bits::Bits;
use ice_chip::Chip;
use ice_core::RoundLog;
use ice_flow_build::{Built, Layout};
use ice_flow_frame::{Texts, one_text};
use ice_flow_words::BuildRequest;
use ice_net::Netlist;
use ice_pads::Pads;
use ice_report::{pin_report, route_report};
use std::alloc::Global;

// The text of the bits. Where they are of the chip, the text says them.
fn bits_text(alloc: Global, chip: &Chip, bits: &Bits) -> Result<Vec<u8>, NoMemory>
    ensures text { IfOk result (λ text. text.items ≡ asc_text chip.now bits.now) }
    ensures read_back { IfOk result (λ text.
        IsOf chip.now bits.now → asc_in chip.now text.items ≡ Ok bits.now) }
{
    let mut text = Vec::new(alloc);
    write_asc(bits, chip, &mut text)?;
    Ok(text)
}

// The report on the pins of ports with these pads in the package of this name.
fn pins_text(
    alloc: Global,
    chip: &Chip,
    name: &[u8],
    netlist: &Netlist,
    pads: &Pads,
) -> Result<Vec<u8>, NoMemory>
    ensures { IfOk result (λ text.
        text.items ≡ pins_text (package_of chip.now name.now) netlist.now pads.now.ports) }
{
    let mut text = Vec::new(alloc);
    if let Some(package) = chip.package(name) {
        pin_report(netlist, package, pads, &mut text)?;
    }
    Ok(text)
}

// The report on the routes of a placed design that has so many nets, of rounds with these logs. More cells or clusters than a number of
// 32 bits counts are want of memory.
fn routes_text(
    alloc: Global,
    layout: &Layout,
    nets: u32,
    logs: &[RoundLog],
    routed: bool,
) -> Result<Vec<u8>, NoMemory>
    ensures { IfOk result (λ text. text.items ≡ route_text (length layout.now.design.cells)
        (length layout.now.clusters.list) nets logs.now routed) }
{
    let cells = to_u32(layout.design.cells().len())?;
    let tiles = to_u32(layout.clusters.list().len())?;
    let mut text = Vec::new(alloc);
    route_report(cells, tiles, nets, logs, routed, &mut text)?;
    Ok(text)
}

// Adds the report on the pins, where it is asked for.
fn add_pins(
    alloc: Global,
    chip: &Chip,
    request: &BuildRequest<'_>,
    netlist: &Netlist,
    pads: &Pads,
    texts: &mut Texts,
) -> Result<(), NoMemory>
    ensures { OnOk result (texts.new ≡ texts.old ++ text_asked (build_view request.now).pins
        (pins_text (package_of chip.now request.now.package_name.now) netlist.now pads.now.ports)) }
{
    if request.pins.is_none() {
        return Ok(());
    }
    let name = request.package_name.as_bytes();
    let text = pins_text(alloc, chip, name, netlist, pads)?;
    texts.add(text)
}

// Adds the report on the routes of what was built, where it is asked for.
fn add_report(
    alloc: Global,
    request: &BuildRequest<'_>,
    built: &Built,
    texts: &mut Texts,
) -> Result<(), NoMemory>
    ensures { OnOk result (texts.new ≡ texts.old ++ text_asked (build_view request.now).report
        (route_text (length built.now.layout.design.cells) (length built.now.layout.clusters.list)
        (length built.now.routed.trees.items) built.now.routed.logs.items true)) }
{
    if request.report.is_none() {
        return Ok(());
    }
    let nets = to_u32(built.routed.trees.len())?;
    let text = routes_text(alloc, &built.layout, nets, &built.routed.logs, true)?;
    texts.add(text)
}

/// The texts of what was built of a netlist: that of the bits, and the reports that are asked for. Where the bits are of the chip, their
/// text says them.
///
/// # Errors
/// Want of memory alone; more cells, clusters or nets than a number of 32 bits counts are such.
pub fn texts_of(
    alloc: Global,
    chip: &Chip,
    request: &BuildRequest<'_>,
    netlist: &Netlist,
    built: &Built,
) -> Result<Texts, NoMemory>
    ensures texts { IfOk result (λ texts.
        texts ≡ texts_of (build_view request.now) (asc_text chip.now built.now.bits)
        (pins_text (package_of chip.now request.now.package_name.now) netlist.now
        built.now.layout.pads.ports)
        (route_text (length built.now.layout.design.cells) (length built.now.layout.clusters.list)
        (length built.now.routed.trees.items) built.now.routed.logs.items true)) }
    ensures read_back { IfOk result (λ texts. IsOf chip.now built.now.bits
        → asc_in chip.now (asc_text chip.now built.now.bits) ≡ Ok built.now.bits) }
{
    let bits = bits_text(alloc, chip, &built.bits)?;
    let mut texts = one_text(alloc, bits)?;
    add_reports(alloc, chip, request, netlist, built, &mut texts)?;
    Ok(texts)
}

// Adds the reports that are asked for.
fn add_reports(
    alloc: Global,
    chip: &Chip,
    request: &BuildRequest<'_>,
    netlist: &Netlist,
    built: &Built,
    texts: &mut Texts,
) -> Result<(), NoMemory>
    ensures { OnOk result (texts.new ≡ texts.old ++ reports_of (build_view request.now)
        (pins_text (package_of chip.now request.now.package_name.now) netlist.now
        built.now.layout.pads.ports)
        (route_text (length built.now.layout.design.cells) (length built.now.layout.clusters.list)
        (length built.now.routed.trees.items) built.now.routed.logs.items true)) }
{
    add_pins(alloc, chip, request, netlist, &built.layout.pads, texts)?;
    add_report(alloc, request, built, texts)
}

/// The report on rounds that gave up, on a placed design that has so many nets, where it is asked for.
///
/// # Errors
/// Want of memory alone; more cells or clusters than a number of 32 bits counts are such.
pub fn parting_text(
    alloc: Global,
    request: &BuildRequest<'_>,
    layout: &Layout,
    nets: u32,
    logs: &[RoundLog],
) -> Result<Option<Vec<u8>>, NoMemory>
    ensures { IfOk result (λ report.
        text_of report ≡ parting_text (build_view request.now) layout.now nets logs.now) }
{
    if request.report.is_none() {
        return Ok(None);
    }
    let text = routes_text(alloc, layout, nets, logs, false)?;
    Ok(Some(text))
}
