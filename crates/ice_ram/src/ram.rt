//! A RAM from step to step.
ghost use Rattle.std.specs.Prelude.{◌≡◌, ◌<◌, length};
ghost use Rattle.ice_net.specs.Kinds.{is_edge};
ghost use Rattle.ice_ram.specs.Ram.{read, after, start};

use crate::word::{read_word, word_at, write};
use crate::{Pins, Setup};
use std::marker::Model;

/// A RAM between two steps. Contracts see it as its setup and what it keeps.
#[derive(Drop)]
pub struct Ram {
    setup: Setup,
    words: Vec<[bool; 16]>,
    out: [bool; 16],
    read_clock: Option<bool>,
    write_clock: Option<bool>,
}

impl Model for Ram {
    ghost use Rattle.ice_ram.specs.declared.setup.Setup.{Setup};
    ghost use Rattle.ice_ram.specs.Ram.{Kept};
    ghost use Rattle.ice_ram.specs.Views.{ram_view, IsRam};

    ghost Value = { Setup × Kept };

    ghost view = { ram_view };

    ghost invariant = { IsRam };
}

// Whether the clock's level of the step before and its level now make the active edge.
fn is_edge(falling: bool, before: Option<bool>, now: bool) -> bool
    ensures { result ≡ is_edge falling before now }
{
    match before {
        None => false,
        Some(before) => {
            if falling {
                before && !now
            } else {
                !before && now
            }
        }
    }
}

impl Ram {
    /// A RAM before its first step, with these 256 words. It takes no memory.
    pub fn new(setup: Setup, words: Vec<[bool; 16]>) -> Ram
        requires many { length words.items ≡ 256 }
        requires read_mode { setup.read_mode < 4 }
        requires write_mode { setup.write_mode < 4 }
        ensures { result ≡ (setup, start words.items) }
    {
        Ram {
            setup,
            words,
            out: [false; 16],
            read_clock: None,
            write_clock: None,
        }
    }

    /// What is settled of it.
    pub fn setup(&self) -> Setup
        ensures setup { result ≡ self.now.0 }
        ensures read_mode { result.read_mode < 4 }
        ensures write_mode { result.write_mode < 4 }
    {
        self.setup
    }

    /// Its 256 words.
    pub fn words(&self) -> &[[bool; 16]]
        ensures words { result.now ≡ self.now.1.words }
        ensures many { length result.now ≡ 256 }
    {
        self.words.as_slice()
    }

    /// What the outputs give.
    pub fn out(&self) -> &[bool; 16]
        ensures { result.now ≡ self.now.1.out }
    {
        &self.out
    }

    // What the outputs give after a step.
    fn next_out(&self, pins: &Pins) -> [bool; 16]
        ensures { result ≡ read self.now.0 self.now.1 pins.now }
    {
        if is_edge(self.setup.read_falls, self.read_clock, pins.read_clock) && pins.read_enable {
            read_word(
                self.setup.read_mode,
                pins,
                &word_at(&self.words, pins.read_address),
            )
        } else {
            self.out
        }
    }

    /// One step: both ports act on what was kept before it.
    pub fn step(&mut self, pins: &Pins)
        ensures { self.new ≡ (self.old.0, after self.old.0 self.old.1 pins.now) }
    {
        let out = self.next_out(pins);
        let acts = is_edge(self.setup.write_falls, self.write_clock, pins.write_clock)
            && pins.write_enable;
        write(&mut self.words, self.setup.write_mode, acts, pins);
        self.out = out;
        self.read_clock = Some(pins.read_clock);
        self.write_clock = Some(pins.write_clock);
    }
}
