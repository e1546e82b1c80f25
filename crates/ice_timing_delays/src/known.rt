//! The delays that the lines so far have given.
ghost use Rattle.std.specs.Prelude.{◌≡◌};
ghost use Rattle.ice_timing_delays.specs.DelayTexts.{none_known, delay_of, with_delay, delays_in};

use crate::Delays;
use crate::word::Word;

/// For each word its delay, where a line has given it.
#[derive(Clone, Copy)]
pub(crate) struct Known {
    pub(crate) pad_in: Option<u32>,
    pub(crate) pad_out: Option<u32>,
    pub(crate) switch: Option<u32>,
    pub(crate) lut: Option<u32>,
    pub(crate) carry: Option<u32>,
    pub(crate) clock_to_q: Option<u32>,
    pub(crate) setup: Option<u32>,
}

impl Known {
    /// None of the seven.
    pub(crate) fn none() -> Known
        ensures { result ≡ none_known }
    {
        Known {
            pad_in: None,
            pad_out: None,
            switch: None,
            lut: None,
            carry: None,
            clock_to_q: None,
            setup: None,
        }
    }

    /// The delay of a word.
    pub(crate) fn delay_of(&self, word: Word) -> Option<u32>
        ensures { result ≡ delay_of self.now word }
    {
        match word {
            Word::PadIn => self.pad_in,
            Word::PadOut => self.pad_out,
            Word::Switch => self.switch,
            Word::Lut => self.lut,
            Word::Carry => self.carry,
            Word::ClockToQ => self.clock_to_q,
            Word::Setup => self.setup,
        }
    }

    /// Gives a word its delay.
    pub(crate) fn set(&mut self, word: Word, delay: u32)
        ensures { self.new ≡ with_delay word delay self.old }
    {
        match word {
            Word::PadIn => self.pad_in = Some(delay),
            Word::PadOut => self.pad_out = Some(delay),
            Word::Switch => self.switch = Some(delay),
            Word::Lut => self.lut = Some(delay),
            Word::Carry => self.carry = Some(delay),
            Word::ClockToQ => self.clock_to_q = Some(delay),
            Word::Setup => self.setup = Some(delay),
        }
    }

    /// The delays, where all seven are there.
    pub(crate) fn delays(&self) -> Option<Delays>
        ensures { result ≡ delays_in self.now }
    {
        Some(Delays {
            pad_in: self.pad_in?,
            pad_out: self.pad_out?,
            switch: self.switch?,
            lut: self.lut?,
            carry: self.carry?,
            clock_to_q: self.clock_to_q?,
            setup: self.setup?,
        })
    }
}
