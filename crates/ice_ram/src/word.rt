//! Words of a RAM: what a port reads of a word, and what it writes into one.
ghost use Rattle.std.specs.Prelude.{◌≡◌, ◌<◌, ◌%◌, length, slice_set, if◌then◌else◌};
ghost use Rattle.ice_ram.specs.Ram.{lanes, lane, pin, word, is_open, written_bit, read_bit, written_word, read_word};

use crate::Pins;

// How many bits of a word share a pin.
fn lanes(mode: u8) -> u16
    requires { mode < 4 }
    ensures lanes { result ≡ lanes mode }
    ensures some { 0 < result }
    ensures few { result < 9 }
{
    match mode {
        0 => 1,
        1 => 2,
        2 => 4,
        _ => 8,
    }
}

// Which of them an address picks.
fn lane(mode: u8, address: u16) -> u16
    requires { mode < 4 }
    ensures { result ≡ lane mode address }
{
    (address / 256) % lanes(mode)
}

// The pin of a bit of a word.
fn pin(mode: u8, k: u16) -> u16
    requires mode { mode < 4 }
    requires bit { k < 16 }
    ensures pin { result ≡ pin mode k }
    ensures few { result < 16 }
{
    match mode {
        0 => k,
        1 => 2 * (k / 2),
        2 => 4 * (k / 4) + 1,
        _ => 8 * (k / 8) + 3,
    }
}

// Whether a bit of a word is written.
fn is_open(mode: u8, pins: &Pins, k: u16) -> bool
    requires mode { mode < 4 }
    requires bit { k < 16 }
    ensures { result ≡ is_open mode pins.now k }
{
    k % lanes(mode) == lane(mode, pins.write_address) && (mode != 0 || !pins.mask[usize::from(k)])
}

// What becomes of a bit of the word that is written.
fn written_bit(mode: u8, pins: &Pins, old: &[bool; 16], k: u16) -> bool
    requires mode { mode < 4 }
    requires bit { k < 16 }
    ensures { result ≡ written_bit mode pins.now old.now k }
{
    if is_open(mode, pins, k) {
        pins.datum[usize::from(pin(mode, k))]
    } else {
        old[usize::from(k)]
    }
}

// What becomes of the word that is written.
pub(crate) fn written_word(mode: u8, pins: &Pins, old: &[bool; 16]) -> [bool; 16]
    requires { mode < 4 }
    ensures { result ≡ written_word mode pins.now old.now }
{
    let mut word = [false; 16];
    for k in 0..16 {
        word[usize::from(k)] = written_bit(mode, pins, old, k);
    }
    word
}

// What a pin reads of the word that is read.
fn read_bit(mode: u8, pins: &Pins, old: &[bool; 16], p: u16) -> bool
    requires mode { mode < 4 }
    requires bit { p < 16 }
    ensures { result ≡ read_bit mode pins.now old.now p }
{
    if p != pin(mode, p) {
        return false;
    }
    let width = lanes(mode);
    let place = width * (p / width) + lane(mode, pins.read_address);
    old.get(usize::from(place)).copied().unwrap_or(false)
}

// What the pins read of a word.
pub(crate) fn read_word(mode: u8, pins: &Pins, old: &[bool; 16]) -> [bool; 16]
    requires { mode < 4 }
    ensures { result ≡ read_word mode pins.now old.now }
{
    let mut word = [false; 16];
    for p in 0..16 {
        word[usize::from(p)] = read_bit(mode, pins, old, p);
    }
    word
}

// The word at an address.
pub(crate) fn word_at(words: &[[bool; 16]], address: u16) -> [bool; 16]
    requires { length words.now ≡ 256 }
    ensures { result ≡ word words.now address }
{
    words[usize::from(address % 256)]
}

// Writes the word at an address.
fn put(words: &mut [[bool; 16]], address: u16, word: [bool; 16])
    requires { length words.old ≡ 256 }
    ensures words { words.new ≡ slice_set words.old (address % 256) word }
    ensures many { length words.new ≡ 256 }
{
    words[usize::from(address % 256)] = word;
}

// Writes the word that is addressed, where the port acts.
pub(crate) fn write(words: &mut [[bool; 16]], mode: u8, acts: bool, pins: &Pins)
    requires mode { mode < 4 }
    requires many { length words.old ≡ 256 }
    ensures words { words.new ≡ (if acts
        then slice_set words.old (pins.now.write_address % 256)
        (written_word mode pins.now (word words.old pins.now.write_address))
        else words.old) }
    ensures many { length words.new ≡ 256 }
{
    if acts {
        let new = written_word(mode, pins, &word_at(words, pins.write_address));
        put(words, pins.write_address, new);
    }
}
