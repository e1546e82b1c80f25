//! The summary of a sample that was placed and routed.
ghost use Rattle.std.specs.Prelude.{◌≡◌, ◌++◌, ◌∷◌, [], OnOk, OnErr, decimal};
ghost use Rattle.std.specs.List.{flat_map};
ghost use Rattle.ice_report.specs.Summary.{size_words, summary_text};

use crate::text::{put_number, put_word};
use ice_base::NoMemory;

/// What is told of a sample that was placed and routed.
#[derive(Clone, Copy)]
pub struct Summary {
    /// The number of the sample.
    pub number: u64,
    /// How many cells its design has.
    pub cells: u64,
    /// How many tiles the design needs.
    pub tiles: u64,
    /// How many nets it has.
    pub nets: u64,
    /// In how many rounds these were routed.
    pub rounds: u64,
    /// The length of the wires, in tiles.
    pub length: u64,
}

// Writes a word and a number behind words.
fn put_size(text: &mut Vec<u8>, title: &[u8], size: u64) -> Result<(), NoMemory>
    ensures { OnOk result (text.new.items
        ≡ text.old.items ++ flat_map (λ word. 32 ∷ word) (title.now ∷ decimal size ∷ [])) }
{
    put_word(text, title)?;
    put_number(text, size)
}

// Writes the sizes behind words.
fn put_sizes(text: &mut Vec<u8>, summary: &Summary) -> Result<(), NoMemory>
    ensures { OnOk result
        (text.new.items ≡ text.old.items ++ flat_map (λ word. 32 ∷ word) (size_words summary.now)) }
{
    put_size(text, b"cells", summary.cells)?;
    put_size(text, b"tiles", summary.tiles)?;
    put_size(text, b"nets", summary.nets)?;
    put_size(text, b"rounds", summary.rounds)?;
    put_size(text, b"length", summary.length)
}

// Writes the text of the summary.
fn put_summary(text: &mut Vec<u8>, summary: &Summary) -> Result<(), NoMemory>
    ensures { OnOk result (text.new.items ≡ text.old.items ++ summary_text summary.now) }
{
    text.extend_from_slice(b"sample")?;
    put_number(text, summary.number)?;
    put_sizes(text, summary)?;
    text.push(b'\n')?;
    Ok(())
}

/// Appends the line that sums up a sample: its number, how many cells its design has, how many tiles that needs and how many nets it
/// has, in how many rounds these were routed, and the length of the wires. The text is made apart from what it is appended to, so
/// that want of memory changes nothing.
///
/// # Errors
/// Want of memory alone.
pub fn sample_report(summary: &Summary, out: &mut Vec<u8>) -> Result<(), NoMemory>
    ensures ok { OnOk result (out.new.items ≡ out.old.items ++ summary_text summary.now) }
    ensures err { OnErr result (out.new.items ≡ out.old.items) }
{
    let mut text = Vec::new(*out.allocator());
    put_summary(&mut text, summary)?;
    out.extend_from_slice(&text)?;
    Ok(())
}
