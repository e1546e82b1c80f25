//! Writing the ports of a netlist.
ghost use Rattle.std.specs.Prelude.{◌≡◌, ◌<◌, ◌∷◌, [], ◌++◌, length, map, All, OnOk};
ghost use Rattle.std.specs.List.{flat_map};
ghost use Rattle.ice_base.specs.Lines.{text_of_lines};
ghost use Rattle.ice_net.specs.Formed.{IsPortBelow};
ghost use Rattle.ice_blif_write.specs.Text.{line_of, name_of, port_lines_by, port_lines};

use crate::line::{end_line, put_word};
use ice_base::NoMemory;
use ice_net::{Netlist, Port, Way};

// Writes a line of two words.
fn put_directive(out: &mut Vec<u8>, directive: &[u8], name: &[u8]) -> Result<(), NoMemory>
    requires { 0 < length directive.now }
    ensures { OnOk result (out.new.items
        ≡ out.old.items ++ text_of_lines (map line_of ((directive.now, name.now ∷ []) ∷ []))) }
{
    out.extend_from_slice(directive)?;
    put_word(out, name)?;
    end_line(out)?;
    Ok(())
}

// Writes a line for each way of a port.
fn put_ways(out: &mut Vec<u8>, name: &[u8], way: Way) -> Result<(), NoMemory>
    ensures { OnOk result (out.new.items
        ≡ out.old.items ++ text_of_lines (map line_of (port_lines_by name.now way))) }
{
    if way != Way::Output {
        put_directive(out, b".inputs", name)?;
    }
    if way != Way::Input {
        put_directive(out, b".outputs", name)?;
    }
    Ok(())
}

// Writes the ports in order.
pub(crate) fn put_ports(
    out: &mut Vec<u8>,
    netlist: &Netlist,
    ports: &[Port],
) -> Result<(), NoMemory>
    requires { All (IsPortBelow (length netlist.now.names)) ports.now }
    ensures { OnOk result (out.new.items ≡ out.old.items
        ++ text_of_lines (map line_of (flat_map (port_lines netlist.now.names) ports.now))) }
{
    for port in ports {
        put_ways(out, netlist.name(port.signal), port.way)?;
    }
    Ok(())
}
