//! The words that block RAMs hold before the first step.
ghost use Rattle.std.specs.Prelude.{◌≡◌, length, All, OnOk};
ghost use Rattle.ice_bits.specs.Rewriting.{with_content};
ghost use Rattle.ice_chip_rams.specs.Sites.{sites};
ghost use Rattle.ice_emit_defs.specs.Rams.{IsFormedRam, AreFormed, site_contents};
ghost use Rattle.ice_emit.specs.Views.{with_contents};

use ice_base::NoMemory;
use ice_bits::{Bits, RamWord};
use ice_chip::Chip;
use ice_chip_rams::{RamSite, sites};
use ice_ram::Ram;
use std::alloc::Global;

// A word has sixteen bits.
fn is_wide(word: &RamWord)
    ensures { length word.now ≡ 16 }
{
    let _bits = word.len();
}

// Each word has sixteen bits.
fn are_wide(words: &[RamWord])
    ensures { All (λ word. length word ≡ 16) words.now }
{
    for word in words {
        is_wide(word);
    }
}

// A block RAM has modes that there are, and 256 words of sixteen bits.
fn is_formed(ram: &Ram)
    ensures { IsFormedRam ram.now }
{
    let _setup = ram.setup();
    let words = ram.words();
    are_wide(words);
}

/// So has each of these.
pub(crate) fn are_formed(rams: &[Ram])
    ensures { AreFormed rams.now }
{
    for ram in rams {
        is_formed(ram);
    }
}

// Adds the words of the block RAM that stands at a site.
fn add_words(alloc: Global, bits: &mut Bits, site: RamSite, ram: &Ram) -> Result<(), NoMemory>
    ensures { OnOk result (bits.new ≡ with_content site.lower ram.now.1.words bits.old) }
{
    let words = Vec::from_slice(alloc, ram.words())?;
    bits.add_content(site.lower, words)
}

// Adds the words of block RAMs, each of which stands at the site of its number.
fn add_all_words(
    alloc: Global,
    bits: &mut Bits,
    sites: &[RamSite],
    rams: &[Ram],
) -> Result<(), NoMemory>
    ensures { OnOk result
        (bits.new ≡ with_contents (site_contents sites.now rams.now) bits.old) }
{
    for k in 0..sites.len().min(rams.len()) {
        add_words(alloc, bits, sites[k], &rams[k])?;
    }
    Ok(())
}

/// Adds the words of block RAMs, each of which stands at the chip's site of its number.
pub(crate) fn add_contents(
    alloc: Global,
    bits: &mut Bits,
    chip: &Chip,
    rams: &[Ram],
) -> Result<(), NoMemory>
    ensures { OnOk result
        (bits.new ≡ with_contents (site_contents (sites chip.now) rams.now) bits.old) }
{
    let sites = sites(alloc, chip)?;
    add_all_words(alloc, bits, &sites, rams)
}
