//! The words of a text of delays.
ghost use Rattle.std.specs.Prelude.{◌≡◌};
ghost use Rattle.ice_timing_delays.specs.DelayTexts.{word_of};

/// What a line gives the delay of.
#[derive(Clone, Copy)]
pub(crate) enum Word {
    PadIn,
    PadOut,
    Switch,
    Lut,
    Carry,
    ClockToQ,
    Setup,
}

/// Which of the seven words these bytes are, or None where they are none.
pub(crate) fn word_of(bytes: &[u8]) -> Option<Word>
    ensures { result ≡ word_of bytes.now }
{
    if bytes == b"pad_in".as_slice() {
        return Some(Word::PadIn);
    }
    if bytes == b"pad_out".as_slice() {
        return Some(Word::PadOut);
    }
    if bytes == b"switch".as_slice() {
        return Some(Word::Switch);
    }
    if bytes == b"lut".as_slice() {
        return Some(Word::Lut);
    }
    if bytes == b"carry".as_slice() {
        return Some(Word::Carry);
    }
    if bytes == b"clock_to_q".as_slice() {
        return Some(Word::ClockToQ);
    }
    if bytes == b"setup".as_slice() {
        return Some(Word::Setup);
    }
    None
}
