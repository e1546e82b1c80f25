//! A RAM as its lines say it.
ghost use Rattle.std.specs.Prelude.{◌≡◌, ◌<◌, length, IfOk};
ghost use Rattle.ice_ram_read.specs.RamData.{with_row, no_words};
ghost use Rattle.ice_ram_read.specs.ClosedNetlists.{ram_of};

use crate::contents::set_row;
use ice_base::{NoMemory, SignalNo};
use ice_ram::{Ram, Setup};
use ice_ram_words::{Edges, RAM_PLACES};
use std::alloc::Global;
use std::marker::Model;

/// A RAM as its lines say it. Contracts see it as a record.
#[derive(Drop)]
pub(crate) struct RamText {
    // The number of its line, from 1.
    line: u32,
    // Which clocks act as they fall.
    edges: Edges,
    // The signals at its sixty inputs and then its sixteen outputs.
    signals: [Option<SignalNo>; RAM_PLACES],
    // The modes of its ports, below 4.
    read_mode: u8,
    write_mode: u8,
    // Its 256 words, each with its lowest bit first.
    words: Vec<[bool; 16]>,
}

impl Model for RamText {
    ghost use Rattle.ice_ram_read.specs.RamData.{RamData};
    ghost use Rattle.ice_ram_read.specs.Views.{text_view, IsRamText};

    ghost Value = { RamData };

    ghost view = { text_view };

    ghost invariant = { IsRamText };
}

impl RamText {
    /// A RAM of that line, all of whose bits are 0.
    #[tactic(auto, unfolding(crate::specs::RamData::no_words))]
    pub(crate) fn new(
        alloc: Global,
        line: u32,
        edges: Edges,
        signals: [Option<SignalNo>; RAM_PLACES],
    ) -> Result<RamText, NoMemory>
        ensures { IfOk result (λ ram. ram ≡ record {
          line = line;
          edges = edges;
          signals = signals;
          read_mode = 0;
          write_mode = 0;
          words = no_words;
        }) }
    {
        let words = Vec::from_slice(alloc, &[[false; 16]; 256])?;
        Ok(RamText {
            line,
            edges,
            signals,
            read_mode: 0,
            write_mode: 0,
            words,
        })
    }

    /// Gives a row of sixteen words these contents.
    pub(crate) fn set_row(&mut self, row: usize, digits: &[u8])
        ensures { self.new ≡ record self.old { words = with_row self.old.words row digits.now } }
    {
        set_row(&mut self.words, row, digits);
    }

    /// Gives the port that reads this mode.
    pub(crate) fn set_read_mode(&mut self, mode: u8)
        requires { mode < 4 }
        ensures { self.new ≡ record self.old { read_mode = mode } }
    {
        self.read_mode = mode;
    }

    /// Gives the port that writes this mode.
    pub(crate) fn set_write_mode(&mut self, mode: u8)
        requires { mode < 4 }
        ensures { self.new ≡ record self.old { write_mode = mode } }
    {
        self.write_mode = mode;
    }

    /// The number of its line, from 1.
    pub(crate) fn line(&self) -> u32
        ensures { result ≡ self.now.line }
    {
        self.line
    }

    /// The signals at its sixty inputs and then its sixteen outputs.
    pub(crate) fn signals(&self) -> &[Option<SignalNo>]
        ensures signals { result.now ≡ self.now.signals }
        ensures many { length result.now ≡ 76 }
    {
        &self.signals
    }

    /// The RAM before its first step.
    pub(crate) fn into_ram(self) -> Ram
        ensures { result ≡ ram_of self }
    {
        let setup = Setup {
            read_mode: self.read_mode,
            write_mode: self.write_mode,
            read_falls: self.edges.read_falls,
            write_falls: self.edges.write_falls,
        };
        Ram::new(setup, self.words)
    }
}
