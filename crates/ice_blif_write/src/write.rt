//! Writing the text of a netlist.
ghost use Rattle.std.specs.Prelude.{◌≡◌, ◌++◌, All, OnOk, OnErr};
ghost use Rattle.ice_blif_write.specs.RoundTrip.{IsSmallCell, IsWritable, HasSameNetlist};
ghost use Rattle.ice_blif_write.specs.Text.{blif_text};

use crate::cells::put_cells;
use crate::laws::written_is_read;
use crate::ports::put_ports;
use ice_base::NoMemory;
use ice_net::Netlist;

// Writes the text of a netlist.
fn put_text(out: &mut Vec<u8>, netlist: &Netlist) -> Result<(), NoMemory>
    ensures small { OnOk result (All IsSmallCell netlist.now.cells) }
    ensures written { OnOk result (out.new.items ≡ out.old.items ++ blif_text netlist.now) }
{
    out.extend_from_slice(b".model back\n")?;
    put_ports(out, netlist, netlist.ports())?;
    put_cells(out, netlist, netlist.cells())?;
    out.extend_from_slice(b".end\n")?;
    Ok(())
}

/// Appends the text of a netlist: the model `back`, a line for each way of each port, each cell on a line with its
/// parameters or rows below it, and the end. The text says this netlist up to line numbers and the list of names, where each
/// name is a word that begins no comment, no output of a cell other than a cover is `$undef`, and no pad has the PIN_TYPE 000000 or
/// 010101, of which `read_blif` takes a pad apart. It is made apart from what it is appended to, so that want of memory changes nothing.
///
/// # Errors
/// Want of memory alone.
pub fn write_blif(netlist: &Netlist, out: &mut Vec<u8>) -> Result<(), NoMemory>
    ensures written { OnOk result (out.new.items ≡ out.old.items ++ blif_text netlist.now) }
    ensures read_back { OnOk result
        (IsWritable netlist.now → HasSameNetlist (blif_text netlist.now) netlist.now) }
    ensures refused { OnErr result (out.new.items ≡ out.old.items) }
{
    netlist.ports();
    written_is_read();
    let mut text = Vec::new(*out.allocator());
    put_text(&mut text, netlist)?;
    out.extend_from_slice(&text)?;
    Ok(())
}
