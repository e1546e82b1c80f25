//! The netlists that the program is called with: two files each, its text and that of pin constraints.
use anyhow::{Result, bail, ensure};
use ice_chip::Chip;
use ice_tests_passes::{Text, show_netlist, show_pinned_netlist};
use std::alloc::Global;
use std::fs::{self, Files};
use std::io::Print;
use std::thread::Threads;

// Shows the netlist in a file, which has no constraints.
fn show_file<R: Files + Threads + Sync + Alloc<A = Global>>(
    rt: &R,
    text: &mut Text,
    chip: &Chip,
    blif: &str,
) -> Result<()> {
    let blif = fs::read(rt, blif)?;
    show_netlist(rt, text, rt.alloc(), chip, &blif)?;
    Ok(())
}

// Shows the netlist in a file with the constraints in another.
fn show_files<R: Files + Threads + Sync + Alloc<A = Global>>(
    rt: &R,
    text: &mut Text,
    chip: &Chip,
    blif: &str,
    pcf: &str,
) -> Result<()> {
    let blif = fs::read(rt, blif)?;
    let pcf = fs::read(rt, pcf)?;
    show_pinned_netlist(rt, text, rt.alloc(), chip, &blif, &pcf)?;
    Ok(())
}

// Prints what was said, as far as there was memory for it.
fn print(rt: &impl Print, text: &Text) -> Result<()> {
    rt.write_all(&text.bytes)?;
    ensure!(text.is_whole(), "want of memory");
    Ok(())
}

// Shows a netlist behind a line with the name of its file; where the name of the other file is -, it has no constraints.
fn show_named<R: Files + Print + Threads + Sync + Alloc<A = Global>>(
    rt: &R,
    chip: &Chip,
    blif: &str,
    pcf: &str,
) -> Result<()> {
    let mut text = Text::new(rt.alloc());
    text.say(b"== ");
    text.say(blif.as_bytes());
    text.say(b"\n");
    let shown = if pcf == "-" {
        show_file(rt, &mut text, chip, blif)
    } else {
        show_files(rt, &mut text, chip, blif, pcf)
    };
    print(rt, &text).and(shown)
}

/// Shows the netlists in files of these names, by a chip.
///
/// # Errors
/// A file without another; what the outside refuses; want of memory.
pub fn show_netlists<R: Files + Print + Threads + Sync + Alloc<A = Global>>(
    rt: &R,
    chip: &Chip,
    words: &[String],
) -> Result<()> {
    for names in words.chunks(2) {
        let [blif, pcf] = names else {
            bail!("each netlist has two files: BLIF PCF");
        };
        show_named(rt, chip, blif.as_str(), pcf.as_str())?;
    }
    Ok(())
}
