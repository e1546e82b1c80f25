//! The kinds of gates.
ghost use Rattle.std.specs.Prelude.{◌≡◌, ◌<◌, IfSome};
ghost use Rattle.ice_net.specs.Formed.{IsGateKind};
ghost use Rattle.ice_blif.specs.Gates.{gate_kind_of, gate_place, gate_outs};
ghost use Rattle.ice_blif.specs.Formals.{formal_place, formal_ins};

use ice_net::{CellKind, kind_named};
use ice_ram_words::{Edges, RAM_INPUTS, place};

/// The place of the output of the global that a pad feeds, behind the ten ports of an SB_IO.
const GLOBAL_PLACE: usize = 10;

/// What a gate is.
#[derive(Clone, Copy)]
pub(crate) struct GateKind {
    /// The kind of its cell.
    pub(crate) kind: CellKind,
    /// Whether it is a pad that feeds a global (SB_GB_IO), and so has one output more than its cell.
    pub(crate) feeds_global: bool,
}

impl GateKind {
    /// The kind of gate that a word names, with parameters of 0. None exactly where it names none.
    pub(crate) fn named(word: &[u8]) -> Option<GateKind>
        ensures kind { result ≡ gate_kind_of word.now }
        ensures gate { IfSome result (λ gate. IsGateKind gate.kind) }
    {
        if word == b"SB_GB_IO".as_slice() {
            return Some(GateKind {
                kind: CellKind::PadCell {
                    pin_type: 0,
                    pullup: false,
                },
                feeds_global: true,
            });
        }
        let kind = kind_named(word)?;
        Some(GateKind {
            kind,
            feeds_global: false,
        })
    }

    /// The place of a port among the inputs and then the outputs, from 0. None exactly where there is no port of that name.
    pub(crate) fn place(self, name: &[u8]) -> Option<usize>
        ensures place { result ≡ gate_place self name.now }
        ensures few { IfSome result (λ place. place < 11) }
    {
        if let Some(place) = self.kind.port_place(name) {
            return Some(place);
        }
        if self.feeds_global && name == b"GLOBAL_BUFFER_OUTPUT".as_slice() {
            return Some(GLOBAL_PLACE);
        }
        None
    }

    /// How many outputs the gate has.
    pub(crate) fn outs_count(self) -> usize
        ensures { result ≡ gate_outs self }
    {
        self.kind.outs_count() + usize::from(self.feeds_global)
    }
}

/// Whose formals the connections of a line have.
#[derive(Clone, Copy)]
pub(crate) enum Formals {
    /// Those of a gate that is a cell.
    OfGate(GateKind),
    /// Those of a RAM, which is none.
    OfRam(Edges),
}

impl Formals {
    /// The place of a formal among the inputs and then the outputs, from 0. None exactly where there is none of that name.
    pub(crate) fn place(self, name: &[u8]) -> Option<usize>
        ensures place { result ≡ formal_place self name.now }
        ensures few { IfSome result (λ place. place < 76) }
    {
        match self {
            Formals::OfGate(gate) => gate.place(name),
            Formals::OfRam(edges) => place(edges, name),
        }
    }

    /// How many inputs there are.
    pub(crate) fn ins_count(self) -> usize
        ensures { result ≡ formal_ins self }
    {
        match self {
            Formals::OfGate(gate) => gate.kind.ins_count(),
            Formals::OfRam(_) => RAM_INPUTS,
        }
    }
}
