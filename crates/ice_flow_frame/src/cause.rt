//! The answers of the program, each with its cause.

ghost use Rattle.std.specs.Prelude.{◌≡◌, []};
ghost use Rattle.ice_flow_frame.specs.Causes.{no_arrangement};

use ice_asc::AscFault;
use ice_base::{NetNo, WireNo};
use ice_blif::BlifFault;
use ice_cells::Items;
use ice_check::NetFault;
use ice_chip::ChipFault;
use ice_core::RoundLog;
use ice_decode::DecodeFault;
use ice_negotiate_defs::Kept;
use ice_pads::PinFault;
use ice_pcf::PcfFault;
use ice_place::{Arrangement, PlaceFault, Placement};
use ice_words::Tally;
use std::alloc::Global;

/// What a file is to the command.
#[derive(Clone, Copy)]
pub enum FileRole {
    /// The text of a chip database.
    Chip,
    /// The text of the pin constraints.
    Pcf,
    /// The text of a netlist.
    Blif,
    /// The text of bits.
    Asc,
    /// The text of levels.
    Levels,
    /// The text of delays.
    Delays,
    /// The report on the pins.
    Pins,
    /// The report on the routes.
    Report,
    /// The standard output.
    Standard,
}

/// The answer of a command with what it is about. The number of each is its status.
#[derive(Drop)]
pub enum Cause {
    /// 0: the work is done and every file is written; with the arrangement of what was built, which has no cell where nothing is
    /// placed, the tally of each of its rounds of routing, and what the opening left of its nets, which is nothing where there was none.
    Good {
        arrangement: Arrangement,
        tallies: Vec<Tally>,
        kept: Vec<Kept>,
    },
    /// 2: the words are no command.
    Usage,
    /// 3: the netlist text is refused.
    BadBlif(BlifFault),
    /// 4: the text of the pins is refused.
    BadPcf(PcfFault),
    /// 5: the text of the chip database is refused.
    BadChip(ChipFault),
    /// 6: the netlist has no meaning.
    BadNet(NetFault),
    /// 7: the pins are refused.
    BadPin(PinFault),
    /// 8: the clusters have no places.
    Overfull(PlaceFault),
    /// 9: on this arrangement no walk leads from the net's root to this sink.
    Unreachable {
        arrangement: Arrangement,
        net: NetNo,
        sink: WireNo,
    },
    /// 10: on this arrangement each permitted round ends with an overused wire; with the log and the tally of each. The opening's log stands
    /// before them, and what it left of the nets, where there was one.
    GaveUp {
        arrangement: Arrangement,
        logs: Vec<RoundLog>,
        tallies: Vec<Tally>,
        kept: Vec<Kept>,
    },
    /// 11: the desk counted a fault of reading.
    ReadFault {
        role: FileRole,
    },
    /// 12: the desk counted a fault of writing, at the put of this number from 1, or at the make, which is 0.
    WriteFault {
        role: FileRole,
        put: u64,
    },
    /// 13: there was no memory.
    NoMemory,
    /// 14: the text of bits is refused.
    BadAsc(AscFault),
    /// 15: the bits have no circuit.
    BadBits(DecodeFault),
    /// 16: a text has more bytes than the limit.
    TooLong {
        role: FileRole,
        limit: usize,
    },
    /// 17: a line of the level text is refused.
    BadLevels {
        line: u32,
    },
    /// 19: a line of the text of delays is refused, or a delay is missing, which is line 0.
    BadDelays {
        line: u32,
    },
}

/// The end of a command: its status and its cause.
#[derive(Drop)]
pub struct Done {
    /// The number of the cause, with which the program ends.
    pub status: u8,
    /// What the answer is about.
    pub cause: Cause,
}

/// The arrangement of no cell. It takes no memory.
pub fn no_arrangement(alloc: Global) -> Arrangement
    ensures { result ≡ no_arrangement }
{
    Arrangement {
        ranks: Items::from_vec(Vec::new(alloc)),
        placement: Placement::from_vec(Vec::new(alloc)),
    }
}

/// The tallies of no round. It takes no memory.
pub fn no_tallies(alloc: Global) -> Vec<Tally>
    ensures { result.items ≡ [] }
{
    Vec::new(alloc)
}

/// What is left of no net. It takes no memory.
pub fn none_kept(alloc: Global) -> Vec<Kept>
    ensures { result.items ≡ [] }
{
    Vec::new(alloc)
}
