//! The law of the bits of placed designs. The function does nothing: its contract is the law.
ghost use Rattle.ice_emit_set_laws.specs.SetLaws.{SetsDesigns, SetsNoGroups};

use ice_chip::{Chip, function_names_are_read};
use ice_chip_laws::chip_is_lawful;
use ice_cluster::laws::cells_stand_in_one_slot;

/// The bits of a placed design set each slot, tile and pad as its cells, clusters and ports say, and each block RAM as it is settled,
/// whatever sound rows are turned on beside its functions: no bit of a function is one of a group of switches, and none is set of a
/// function of a PLL, of a pair of pads or of a cascade of block RAMs.
pub fn designs_are_set(chip: &Chip)
    ensures apart { SetsNoGroups chip.now }
    ensures set { SetsDesigns chip.now }
{
    chip.is_chip();
    chip.enables();
    chip_is_lawful(chip);
    function_names_are_read();
    cells_stand_in_one_slot();
}
