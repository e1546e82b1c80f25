//! Words of a RAM's ports.
ghost use Rattle.std.specs.Prelude.{◌≡◌, ◌<◌, ◌++◌, decimal, IfOk};
ghost use Rattle.ice_ram_read.specs.ClosedNetlists.{bus_word, lone_word, port_word, port_way};

use ice_base::NoMemory;
use ice_net::Way;
use itoa::Buffer;
use std::alloc::Global;

/// How many ports of a RAM are its outputs.
pub(crate) const OUTPUTS: usize = 16;

// A word with a number behind it.
fn numbered(alloc: Global, base: &[u8], number: usize) -> Result<Vec<u8>, NoMemory>
    ensures { IfOk result (λ word. word.items ≡ base.now ++ decimal number) }
{
    let mut buffer = Buffer::new();
    let mut word = Vec::from_slice(alloc, base)?;
    word.extend_from_slice(buffer.format(number).as_bytes())?;
    Ok(word)
}

// The word of a port of a bus.
fn bus_word(alloc: Global, k: usize) -> Result<Vec<u8>, NoMemory>
    requires { k < 70 }
    ensures { IfOk result (λ word. word.items ≡ bus_word k) }
{
    if k < 16 {
        numbered(alloc, b"RDATA_", k)
    } else if k < 27 {
        numbered(alloc, b"RADDR_", k - 16)
    } else if k < 38 {
        numbered(alloc, b"WADDR_", k - 27)
    } else if k < 54 {
        numbered(alloc, b"MASK_", k - 38)
    } else {
        numbered(alloc, b"WDATA_", k - 54)
    }
}

// The word of a port of no bus.
fn lone_word(k: usize) -> &'static [u8]
    ensures { result.now ≡ lone_word k }
{
    match k {
        70 => b"RCLK".as_slice(),
        71 => b"WCLK".as_slice(),
        72 => b"RE".as_slice(),
        _ => b"WE".as_slice(),
    }
}

/// The word of a port.
pub(crate) fn port_word(alloc: Global, k: usize) -> Result<Vec<u8>, NoMemory>
    ensures { IfOk result (λ word. word.items ≡ port_word k) }
{
    if k < 70 {
        return bus_word(alloc, k);
    }
    let word = Vec::from_slice(alloc, lone_word(k))?;
    Ok(word)
}

/// The way of a port: an output of the RAM comes in.
pub(crate) fn port_way(k: usize) -> Way
    ensures { result ≡ port_way k }
{
    if k < OUTPUTS { Way::Input } else { Way::Output }
}
