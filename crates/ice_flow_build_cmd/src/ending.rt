//! From what was built to what is made of the texts, and from its faults to refusals.
ghost use Rattle.std.specs.Prelude.{◌≡◌, true, length, None, Ok, IfOk, IfErr};
ghost use Rattle.ice_flow_frame.specs.declared.cause.Cause.TheVariants.{NoMemory as out_of_memory};
ghost use Rattle.ice_flow_frame.specs.Ends.{text_of};
ghost use Rattle.ice_flow_frame.specs.Told.{telling, told_in};
ghost use Rattle.ice_asc.specs.Grammar.{asc_in};
ghost use Rattle.ice_asc.specs.Text.{asc_text};
ghost use Rattle.ice_bits.specs.Grids.{IsOf};
ghost use Rattle.ice_flow_build.specs.Laid.{arrangement_in};
ghost use Rattle.ice_chip.specs.Lookups.{package_of};
ghost use Rattle.ice_report.specs.RouteReport.{route_text};
ghost use Rattle.ice_flow_build_cmd.specs.Ending.{IsBuildRefusal, report_of};
ghost use Rattle.ice_flow_build_cmd.specs.Reports.{pins_text, texts_of};
ghost use Rattle.ice_flow_words.specs.Views.{build_view};

use crate::texts::{parting_text, texts_of};
use ice_base::NoMemory;
use ice_chip::Chip;
use ice_flow_build::{BuildFault, Built, arrangement_of, tallies_of};
use ice_flow_build_frame::cause_of;
use ice_flow_frame::{Cause, Made, Refused};
use ice_flow_words::BuildRequest;
use ice_net::Netlist;
use std::alloc::Global;

/// What is made of what was built of a netlist: the texts that are asked for, with the arrangement, the tallies and what the opening left. Where the bits are of
/// the chip, their text says them.
///
/// # Errors
/// Want of memory alone.
pub fn made_of(
    alloc: Global,
    chip: &Chip,
    request: &BuildRequest<'_>,
    netlist: &Netlist,
    built: Built,
) -> Result<Made, Refused>
    ensures texts { IfOk result (λ made.
        made.texts ≡ texts_of (build_view request.now) (asc_text chip.now built.bits)
        (pins_text (package_of chip.now request.now.package_name.now)
        netlist.now built.layout.pads.ports)
        (route_text (length built.layout.design.cells) (length built.layout.clusters.list)
        (length built.routed.trees.items) built.routed.logs.items true)) }
    ensures arrangement { IfOk result (λ made. made.arrangement ≡ arrangement_in built.layout) }
    ensures told { IfOk result (λ made. told_in made ≡ telling built.routed.tallies built.kept) }
    ensures read_back { IfOk result (λ made.
        IsOf chip.now built.bits → asc_in chip.now (asc_text chip.now built.bits) ≡ Ok built.bits) }
    ensures stop { IfErr result (λ refused. refused.cause ≡ out_of_memory) }
    ensures unreported { IfErr result (λ refused. refused.report ≡ None) }
{
    match texts_of(alloc, chip, request, netlist, &built) {
        Ok(texts) => {
            let Built {
                layout,
                kept,
                routed,
                bits,
            } = built;
            drop(bits);
            Ok(Made {
                texts,
                arrangement: arrangement_of(layout),
                tallies: tallies_of(routed),
                kept,
            })
        }
        Err(NoMemory) => {
            drop(built);
            Err(without_report(Cause::NoMemory))
        }
    }
}

/// A refusal without a report.
pub fn without_report(cause: Cause) -> Refused
    ensures cause { result.cause ≡ cause }
    ensures report { result.report ≡ None }
{
    Refused {
        cause,
        report: None,
    }
}

// The report on the rounds, where they gave up and it is asked for.
fn parting_report(
    alloc: Global,
    request: &BuildRequest<'_>,
    fault: &BuildFault,
) -> Result<Option<Vec<u8>>, NoMemory>
    ensures { IfOk result (λ report.
        text_of report ≡ report_of (build_view request.now) fault.now) }
{
    match fault {
        BuildFault::GaveUp {
            layout,
            nets,
            kept: _,
            logs,
            tallies: _,
        } => parting_text(alloc, request, layout, *nets, logs),
        _ => Ok(None),
    }
}

/// Why nothing was built: the fault, with the arrangement of which it is told, or want of memory; and the report on the rounds, where they
/// gave up and it is asked for.
pub fn build_refusal(alloc: Global, request: &BuildRequest<'_>, fault: BuildFault) -> Refused
    ensures { IsBuildRefusal (build_view request.now) fault result }
{
    match parting_report(alloc, request, &fault) {
        Ok(report) => Refused {
            cause: cause_of(fault),
            report,
        },
        Err(NoMemory) => {
            drop(fault);
            without_report(Cause::NoMemory)
        }
    }
}
