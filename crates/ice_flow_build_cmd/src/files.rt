//! The files that are written.
ghost use Rattle.std.specs.Prelude.{◌≡◌, ◌≤◌, take};
ghost use Rattle.ice_flow_frame.specs.Texts.{files_view, parting_view};
ghost use Rattle.ice_flow_build_cmd.specs.Asked.{outputs_of, parting_of, pins_of};
ghost use Rattle.ice_flow_words.specs.Views.{build_view};

use ice_flow_frame::{CommandFile, FileRole};
use ice_flow_words::BuildRequest;

/// Three files, and how many of them, from the first on, are written in this order: that of the bits, and those of the reports that are
/// asked for.
pub fn outputs<'a>(request: &BuildRequest<'a>) -> ([CommandFile<'a>; 3], usize)
    ensures few { result.1 ≤ 3 }
    ensures files { files_view (take result.1 result.0) ≡ outputs_of (build_view request.now) }
{
    let asc = CommandFile {
        role: FileRole::Asc,
        name: request.asc,
    };
    match (pins(request), parting(request)) {
        (None, None) => ([asc, asc, asc], 1),
        (None, Some(report)) => ([asc, report, asc], 2),
        (Some(pins), None) => ([asc, pins, asc], 2),
        (Some(pins), Some(report)) => ([asc, pins, report], 3),
    }
}

// The file of the report on the pins, where it is asked for.
fn pins<'a>(request: &BuildRequest<'a>) -> Option<CommandFile<'a>>
    ensures { parting_view result ≡ pins_of (build_view request.now) }
{
    match request.pins {
        None => None,
        Some(name) => Some(CommandFile {
            role: FileRole::Pins,
            name,
        }),
    }
}

/// The file of the report on the routes, where it is asked for: it is written, too, where the rounds give up.
pub fn parting<'a>(request: &BuildRequest<'a>) -> Option<CommandFile<'a>>
    ensures { parting_view result ≡ parting_of (build_view request.now) }
{
    match request.report {
        None => None,
        Some(name) => Some(CommandFile {
            role: FileRole::Report,
            name,
        }),
    }
}
