//! The sample texts, made and read.
ghost use Rattle.std.specs.Prelude.{◌≡◌, ℕ, [], Ok, IfOk, IfErr};
ghost use Rattle.ice_flow_frame.specs.Commands.{IsRefusal};
ghost use Rattle.ice_blif.specs.Grammar.{netlist_of};
ghost use Rattle.ice_check.specs.Sound.{IsSound};
ghost use Rattle.ice_chip.specs.Database.{Parts};
ghost use Rattle.ice_chip_read.specs.Whole.{chip_says};
ghost use Rattle.ice_flow_build.specs.Laid.{task_of};
ghost use Rattle.ice_flow_sample_cmd.specs.Samples.{chip_text, net_text, package_name, IsAsked};
ghost use Rattle.ice_flow_sample_cmd.specs.Standing.{BlifStands, StandsForSample};

use ice_base::NoMemory;
use ice_blif::read_blif;
use ice_check::{Sound, check};
use ice_chip::Chip;
use ice_chip_read::read_chip;
use ice_flow_frame::{Cause, blif_refusal, chip_refusal, net_refusal};
use ice_net::Netlist;
use ice_sample::{sample_chip, sample_net};
use std::alloc::Global;

// The text of the sample chip.
#[tactic(auto, unfolding(crate::specs::Samples::chip_text))]
fn chip_text(alloc: Global) -> Result<Vec<u8>, NoMemory>
    ensures { IfOk result (λ text. text.items ≡ chip_text) }
{
    let mut text = Vec::new(alloc);
    sample_chip(alloc, 14, 18, &mut text)?;
    Ok(text)
}

// The text of the sample netlist of a number.
#[tactic(auto, unfolding(crate::specs::Samples::net_text))]
fn net_text(alloc: Global, number: u64) -> Result<Vec<u8>, NoMemory>
    ensures { IfOk result (λ text. text.items ≡ net_text number) }
{
    let mut text = Vec::new(alloc);
    sample_net(number, 96, &mut text)?;
    Ok(text)
}

// The sample chip, by its text.
fn read_chip_text(alloc: Global, text: &[u8]) -> Result<Chip, Cause>
    requires { text.now ≡ chip_text }
    ensures chip { IfOk result (λ chip. chip_says chip_text ≡ Ok chip) }
    ensures refused { IfErr result (λ cause.
        (number : ℕ) → IsRefusal (StandsForSample number) cause) }
{
    match read_chip(alloc, text) {
        Ok(chip) => Ok(chip),
        Err(fault) => Err(chip_refusal(fault)),
    }
}

// The sample chip.
fn read_sample_chip(alloc: Global) -> Result<Chip, Cause>
    ensures chip { IfOk result (λ chip. chip_says chip_text ≡ Ok chip) }
    ensures refused { IfErr result (λ cause.
        (number : ℕ) → IsRefusal (StandsForSample number) cause) }
{
    match chip_text(alloc) {
        Ok(text) => read_chip_text(alloc, &text),
        Err(NoMemory) => Err(Cause::NoMemory),
    }
}

// The netlist of a number, by its text.
fn read_net_text(alloc: Global, number: u64, text: &[u8]) -> Result<Netlist, Cause>
    requires { text.now ≡ net_text number }
    ensures netlist { IfOk result (λ netlist. netlist_of (net_text number) ≡ Ok netlist) }
    ensures refused { IfErr result (λ cause.
        (parts : Parts) → IsRefusal (BlifStands number parts) cause) }
{
    match read_blif(alloc, text) {
        Ok(netlist) => Ok(netlist),
        Err(fault) => Err(blif_refusal(fault)),
    }
}

// The netlist of a number.
fn read_netlist(alloc: Global, number: u64) -> Result<Netlist, Cause>
    ensures netlist { IfOk result (λ netlist. netlist_of (net_text number) ≡ Ok netlist) }
    ensures refused { IfErr result (λ cause.
        (parts : Parts) → IsRefusal (BlifStands number parts) cause) }
{
    match net_text(alloc, number) {
        Ok(text) => read_net_text(alloc, number, &text),
        Err(NoMemory) => Err(Cause::NoMemory),
    }
}

// A sound netlist that the text of a number says.
fn check_netlist(alloc: Global, number: u64, netlist: Netlist) -> Result<Sound, Cause>
    requires { netlist_of (net_text number) ≡ Ok netlist }
    ensures netlist { IfOk result (λ sound. netlist_of (net_text number) ≡ Ok sound) }
    ensures sound { IfOk result (λ sound. IsSound sound) }
    ensures refused { IfErr result (λ cause.
        (parts : Parts) → IsRefusal (BlifStands number parts) cause) }
{
    match check(alloc, netlist) {
        Ok(sound) => Ok(sound),
        Err(fault) => Err(net_refusal(fault)),
    }
}

// The sample netlist of a number, checked.
fn read_sample_net(alloc: Global, number: u64) -> Result<Sound, Cause>
    ensures netlist { IfOk result (λ sound. netlist_of (net_text number) ≡ Ok sound) }
    ensures sound { IfOk result (λ sound. IsSound sound) }
    ensures refused { IfErr result (λ cause.
        (parts : Parts) → IsRefusal (BlifStands number parts) cause) }
{
    match read_netlist(alloc, number) {
        Ok(netlist) => check_netlist(alloc, number, netlist),
        Err(cause) => Err(cause),
    }
}

/// What the sample texts of a number say.
#[derive(Drop)]
pub struct SampleTask {
    /// The sample chip.
    pub chip: Chip,
    /// The netlist of the number.
    pub sound: Sound,
}

/// The sample texts of a number, read: first the chip's, then the netlist's.
///
/// # Errors
/// The fault of the chip's text, then that of the netlist's text, or of the netlist; want of memory.
pub fn read_sample(alloc: Global, number: u64) -> Result<SampleTask, Cause>
    ensures task { IfOk result (λ task.
        IsAsked number (task_of task.chip package_name [] task.sound)) }
    ensures refused { IfErr result (λ cause. IsRefusal (StandsForSample number) cause) }
{
    let chip = match read_sample_chip(alloc) {
        Ok(chip) => chip,
        Err(cause) => return Err(cause),
    };
    match read_sample_net(alloc, number) {
        Ok(sound) => Ok(SampleTask { chip, sound }),
        Err(cause) => {
            drop(chip);
            Err(cause)
        }
    }
}
