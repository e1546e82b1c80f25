//! The report on pins.
ghost use Rattle.std.specs.Prelude.{◌≡◌, ◌<◌, ◌++◌, ◌∷◌, [], All, length, map, slice_index_or, OnOk, OnErr};
ghost use Rattle.std.specs.List.{flat_map, zip};
ghost use Rattle.ice_base.specs.Lines.{text_of_lines};
ghost use Rattle.ice_chip.specs.Views.{package_view};
ghost use Rattle.ice_net.specs.Formed.{IsPortBelow};
ghost use Rattle.ice_chip.specs.Listings.{first_pin};
ghost use Rattle.ice_report.specs.PinReport.{way_word, pad_words, pin_line, pin_text};

use crate::text::{put_number, put_word};
use ice_base::NoMemory;
use ice_chip::{Package, Pad};
use ice_net::{Netlist, Port, Way};
use ice_pads::Pads;

// The word for the way of a port.
fn way_word(way: Way) -> &'static [u8]
    ensures { result.now ≡ way_word way }
{
    match way {
        Way::Input => b"in",
        Way::Output => b"out",
        Way::Both => b"both",
    }
}

// The first pin of the package that leads to the pad; empty where none does.
fn first_pin(package: &Package, pad: Pad) -> &[u8]
    ensures { result.now ≡ first_pin (package_view «package».now) pad }
{
    for (pin, bonded) in &package.pins {
        if pad == *bonded {
            return pin.as_bytes();
        }
    }
    b""
}

// Writes a pad and its first pin behind a word.
fn put_pad(text: &mut Vec<u8>, package: &Package, pad: Pad) -> Result<(), NoMemory>
    ensures { OnOk result (text.new.items ≡ text.old.items
        ++ flat_map (λ word. 32 ∷ word) (pad_words (package_view «package».now) pad)) }
{
    put_word(text, first_pin(package, pad))?;
    put_number(text, u64::from(pad.tile.x))?;
    put_number(text, u64::from(pad.tile.y))?;
    put_number(text, u64::from(pad.pio))?;
    Ok(())
}

// The name of a port.
fn port_name(netlist: &Netlist, port: Port) -> &[u8]
    requires { port.signal.0 < length netlist.now.names }
    ensures { result.now ≡ slice_index_or netlist.now.names port.signal.0 [] }
{
    netlist.name(port.signal)
}

// Writes the line of a port.
fn put_port(
    text: &mut Vec<u8>,
    netlist: &Netlist,
    package: &Package,
    port: Port,
    pad: Pad,
) -> Result<(), NoMemory>
    requires { port.signal.0 < length netlist.now.names }
    ensures { OnOk result (text.new.items ≡ text.old.items
        ++ text_of_lines (pin_line netlist.now (package_view «package».now) (port, pad) ∷ [])) }
{
    text.extend_from_slice(port_name(netlist, port))?;
    put_pad(text, package, pad)?;
    put_word(text, way_word(port.way))?;
    text.push(b'\n')?;
    Ok(())
}

// Writes the lines of ports with these pads.
fn put_ports(
    text: &mut Vec<u8>,
    netlist: &Netlist,
    package: &Package,
    ports: &[Port],
    pads: &[Pad],
) -> Result<(), NoMemory>
    requires { All (IsPortBelow (length netlist.now.names)) ports.now }
    ensures { OnOk result (text.new.items ≡ text.old.items ++ text_of_lines
        (map (pin_line netlist.now (package_view «package».now)) (zip ports.now pads.now))) }
{
    for (port, pad) in ports.iter().zip(pads) {
        put_port(text, netlist, package, *port, *pad)?;
    }
    Ok(())
}

/// Appends the report on pins: for each port of the netlist, in order, a line with its name, the first pin of the package
/// that leads to its pad, the column and the row of the pad's tile, which of the tile's two pads it is, and the way of the
/// port. Where the package has no such pin, an empty word stands for it. The text is made apart from what it is appended
/// to, so that want of memory changes nothing.
///
/// # Errors
/// Want of memory alone.
pub fn pin_report(
    netlist: &Netlist,
    package: &Package,
    pads: &Pads,
    out: &mut Vec<u8>,
) -> Result<(), NoMemory>
    ensures ok { OnOk result (out.new.items
        ≡ out.old.items ++ pin_text netlist.now (package_view «package».now) pads.now.ports) }
    ensures err { OnErr result (out.new.items ≡ out.old.items) }
{
    let mut text = Vec::new(*out.allocator());
    put_ports(&mut text, netlist, package, netlist.ports(), pads.ports())?;
    out.extend_from_slice(&text)?;
    Ok(())
}
