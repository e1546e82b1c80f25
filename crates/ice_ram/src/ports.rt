//! Ports of RAMs that are cut out of a circuit: what RAMs give to theirs, and what they take from them.
ghost use Rattle.std.specs.Prelude.{◌≡◌, ◌+◌, ◌*◌, ◌<◌, ◌≤◌, if◌then◌else◌, length};
ghost use Rattle.ice_net.specs.Meaning.{number_of};
ghost use Rattle.ice_ram.specs.Ports.{given, port_level, joined_levels, taken_at, taken_from, pins_at, after_all};

use crate::{Pins, Ram};
use ice_net::Drive;

/// How many ports a RAM has: the outputs RDATA_0 to RDATA_15, and then the inputs RADDR_0 to RADDR_10, WADDR_0 to WADDR_10,
/// MASK_0 to MASK_15, WDATA_0 to WDATA_15, RCLK, WCLK, RE and WE.
pub const RAM_PORTS: usize = 74;

// The level at port k of those of RAMs that stand side by side.
fn given(rams: &[Ram], k: usize) -> bool
    ensures { result ≡ given rams.now k }
{
    match rams.get(k / RAM_PORTS) {
        None => false,
        Some(ram) => ram.out().get(k % RAM_PORTS).copied().unwrap_or(false),
    }
}

// The level of port k of a circuit with so many other ports, behind which those of RAMs stand.
fn port_level(first: usize, levels: &[bool], rams: &[Ram], k: usize) -> bool
    ensures { result ≡ port_level first levels.now rams.now k }
{
    if k < first {
        levels.get(k).copied().unwrap_or(false)
    } else {
        given(rams, k - first)
    }
}

/// The levels of all ports of a circuit: those from outside of its first ports, and what RAMs give to those behind. It takes
/// no memory.
pub fn join_levels(first: usize, levels: &[bool], rams: &[Ram], out: &mut [bool])
    requires { length out.old ≡ first + 74 * length rams.now }
    ensures { out.new ≡ joined_levels first levels.now rams.now }
{
    for k in 0..out.len() {
        out[k] = port_level(first, levels, rams, k);
    }
}

// The level that RAMs take from port k.
fn taken_at(drives: &[Drive], k: usize) -> bool
    ensures { result ≡ taken_at drives.now k }
{
    match drives.get(k) {
        Some(Drive::High) => true,
        _ => false,
    }
}

// The digit that stands for a level.
fn digit(level: bool) -> u16
    ensures digit { result ≡ (if level then 1 else 0) }
    ensures few { result < 2 }
{
    u16::from(level)
}

// What RAMs take from the eleven ports of an address, from port k on.
fn address_at(drives: &[Drive], k: usize) -> u16
    requires { k + 11 ≤ length drives.now }
    ensures { result ≡ number_of (taken_from drives.now k 11) }
{
    let mut address = 0;
    for done in 0..11 {
        address = 2 * address + digit(taken_at(drives, k + (10 - done)));
    }
    address
}

// What RAMs take from sixteen ports, from port k on.
fn word_at(drives: &[Drive], k: usize) -> [bool; 16]
    requires { k + 16 ≤ length drives.now }
    ensures { result ≡ taken_from drives.now k 16 }
{
    let mut word = [false; 16];
    for bit in 0..16 {
        word[bit] = taken_at(drives, k + bit);
    }
    word
}

// The pins of the RAM whose first port is port k.
fn pins_at(drives: &[Drive], k: usize) -> Pins
    requires { k + 74 ≤ length drives.now }
    ensures { result ≡ pins_at drives.now k }
{
    Pins {
        read_clock: taken_at(drives, k + 70),
        read_enable: taken_at(drives, k + 72),
        read_address: address_at(drives, k + 16),
        write_clock: taken_at(drives, k + 71),
        write_enable: taken_at(drives, k + 73),
        write_address: address_at(drives, k + 27),
        mask: word_at(drives, k + 38),
        datum: word_at(drives, k + 54),
    }
}

/// One step of RAMs, the first port of the first of them being port k: each takes what its ports drive. It takes no memory.
pub fn step_all(rams: &mut [Ram], drives: &[Drive], k: usize)
    requires { k + 74 * length rams.old ≤ length drives.now }
    ensures { rams.new ≡ after_all drives.now k rams.old }
{
    for j in 0..rams.len() {
        let pins = pins_at(drives, k + RAM_PORTS * j);
        rams[j].step(&pins);
    }
}
