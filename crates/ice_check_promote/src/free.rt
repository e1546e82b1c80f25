//! How many globals a netlist leaves free.
ghost use Rattle.std.specs.Prelude.{◌≡◌};
ghost use Rattle.ice_check_promote.specs.Free.{is_buffer, free_beside};

use ice_net::{CellKind, Netlist};

// Whether a cell is a global buffer.
fn is_buffer(kind: CellKind) -> bool
    ensures { result ≡ is_buffer kind }
{
    matches!(kind, CellKind::Global)
}

/// How many of so many globals are free beside the netlist's own global buffers, each of which takes one; 0 where there are fewer
/// globals than buffers. It takes no memory.
pub fn free_beside(globals: u32, netlist: &Netlist) -> u32
    ensures { result ≡ free_beside globals netlist.now }
{
    let mut free = globals;
    for cell in netlist.cells() {
        if is_buffer(cell.kind) {
            free = free.saturating_sub(1);
        }
    }
    free
}
