//! The block RAMs that bits have in use, before the first step.
ghost use Rattle.std.specs.Prelude.{◌≡◌, ◌<◌, IfOk};
ghost use Rattle.ice_chip.specs.Database.{same_tile};
ghost use Rattle.ice_bits.specs.Configuration.{bits_of};
ghost use Rattle.ice_bits.specs.Grids.{IsOf};
ghost use Rattle.ice_sim_chip_rams.specs.ClosedChips.{mode_digit, mode_at, setup_of, no_words, words_of, ram_at, rams_at};

use ice_base::{NoMemory, TileAt};
use ice_bits::{Bits, RamWord};
use ice_chip::{Chip, falling_clock_function, ram_mode_function};
use ice_chip_rams::RamSite;
use ice_decode::setting;
use ice_ram::{Ram, Setup};
use std::alloc::Global;

/// How many words a block RAM has.
const WORDS: usize = 256;

// A digit of the modes of a block RAM's ports.
fn mode_digit(chip: &Chip, bits: &Bits, site: RamSite, place: u8) -> u8
    ensures digit { result ≡ mode_digit chip.now (bits_of bits.now) site place }
    ensures few { result < 2 }
{
    if setting(chip, bits, site.upper, &ram_mode_function(place), 0) {
        1
    } else {
        0
    }
}

// The mode of the port of a block RAM whose digits stand from this place on.
fn mode_at(chip: &Chip, bits: &Bits, site: RamSite, place: u8) -> u8
    requires { place < 3 }
    ensures mode { result ≡ mode_at chip.now (bits_of bits.now) site place }
    ensures few { result < 4 }
{
    mode_digit(chip, bits, site, place) + 2 * mode_digit(chip, bits, site, place + 1)
}

// What is settled of a block RAM.
fn setup_of(chip: &Chip, bits: &Bits, site: RamSite) -> Setup
    ensures setup { result ≡ setup_of chip.now (bits_of bits.now) site }
    ensures read_mode { result.read_mode < 4 }
    ensures write_mode { result.write_mode < 4 }
{
    Setup {
        read_mode: mode_at(chip, bits, site, 2),
        write_mode: mode_at(chip, bits, site, 0),
        read_falls: setting(chip, bits, site.upper, &falling_clock_function(), 0),
        write_falls: setting(chip, bits, site.lower, &falling_clock_function(), 0),
    }
}

// Whether the places are equal.
fn is_same(a: TileAt, b: TileAt) -> bool
    ensures { result ≡ same_tile a b }
{
    a.x == b.x && a.y == b.y
}

// Words that are all 0.
fn no_words(alloc: Global) -> Result<Vec<RamWord>, NoMemory>
    ensures { IfOk result (λ words. words.items ≡ no_words) }
{
    let mut words = Vec::with_capacity(alloc, WORDS)?;
    for _word in 0..WORDS {
        words.push([false; 16])?;
    }
    Ok(words)
}

// The words that a block RAM holds before the first step.
fn words_of(alloc: Global, bits: &Bits, site: RamSite) -> Result<Vec<RamWord>, NoMemory>
    ensures { IfOk result (λ words. words.items ≡ words_of bits.now site) }
{
    for content in bits.contents() {
        if is_same(site.lower, content.0) {
            let words = Vec::from_slice(alloc, &content.1)?;
            return Ok(words);
        }
    }
    let blank = no_words(alloc)?;
    Ok(blank)
}

// A block RAM before the first step.
fn ram_at(alloc: Global, chip: &Chip, bits: &Bits, site: RamSite) -> Result<Ram, NoMemory>
    requires { IsOf chip.now bits.now }
    ensures { IfOk result (λ ram. ram ≡ ram_at chip.now bits.now site) }
{
    let words = words_of(alloc, bits, site)?;
    Ok(Ram::new(setup_of(chip, bits, site), words))
}

/// These block RAMs before the first step.
///
/// # Errors
/// Want of memory alone.
pub(crate) fn rams_at(
    alloc: Global,
    chip: &Chip,
    bits: &Bits,
    sites: &[RamSite],
) -> Result<Vec<Ram>, NoMemory>
    requires { IsOf chip.now bits.now }
    ensures { IfOk result (λ rams. rams.items ≡ rams_at chip.now bits.now sites.now) }
{
    let mut rams = Vec::with_capacity(alloc, sites.len())?;
    for site in sites {
        rams.push(ram_at(alloc, chip, bits, *site)?)?;
    }
    Ok(rams)
}
