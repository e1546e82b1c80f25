//! The law of placed and routed designs, as the contract of a function that does nothing.
ghost use Rattle.std.specs.Prelude.{Bool, List};
ghost use Rattle.ice_chip.specs.Database.{PackageRows};
ghost use Rattle.ice_place_defs.specs.Plan.{Plan};
ghost use Rattle.ice_graph.specs.Leading.{Route};
ghost use Rattle.ice_emit_defs.specs.Routed.{AreTrees, IsPlaced};
ghost use Rattle.ice_emit_defs.specs.Written.{wanted_rows, held_by};
ghost use Rattle.ice_emit_led_laws.specs.RowsLed.{AreRowsLed};
ghost use Rattle.ice_emit_led_laws.specs.PinsLed.{PinsAreLed};
ghost use Rattle.ice_emit_defs.specs.Led.{AreLed};

use ice_chip::{Chip, wire_names_are_read};
use ice_chip_laws::{chip_is_lawful, lookups_are_lawful};
use ice_cluster::laws::{cells_stand_in_one_slot, runs_stand_in_chunks};

/// The rows that are turned on are sound and enter different wires, and none is the wire of a root or of a carry. Each comes from a
/// wire that rows lead to from a root that is read, or brings a carry of a run to an input or into a tile.
pub fn rows_lead_on_from_roots(chip: &Chip)
    ensures { (rows : PackageRows) (plan : Plan) (pullups : List Bool) (routes : List Route)
        → IsPlaced chip.now rows plan pullups → AreTrees chip.now plan routes
        → AreRowsLed chip.now plan (wanted_rows chip.now plan routes) }
{
    chip.is_chip();
    chip_is_lawful(chip);
    wire_names_are_read();
    cells_stand_in_one_slot();
    runs_stand_in_chunks();
}

/// Wanted rows lead from the wire of each root to each pin that reads it: of pads, of what feeds globals, of cells and of what the
/// flip-flops of a tile share. No wanted row enters a pin that reads nothing. In a free cell each root arrives at a pin of its own.
pub fn pins_are_led()
    ensures { PinsAreLed }
{
    wire_names_are_read();
    lookups_are_lawful();
    cells_stand_in_one_slot();
    runs_stand_in_chunks();
}

/// Where trees lead over usable rows from the roots of a placed design to its sinks, the rows that are turned on enter different
/// wires and lead from each root to all pins that read it, and to no other; and the carries of runs come to where they go on.
pub fn roots_are_led_to_pins(chip: &Chip)
    ensures { (rows : PackageRows) (plan : Plan) (pullups : List Bool) (routes : List Route)
        → IsPlaced chip.now rows plan pullups → AreTrees chip.now plan routes
        → AreLed chip.now plan (wanted_rows chip.now plan routes) (held_by chip.now plan routes) }
{
    chip.is_chip();
    rows_lead_on_from_roots(chip);
    pins_are_led();
}
