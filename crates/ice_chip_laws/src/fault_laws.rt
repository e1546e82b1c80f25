//! Laws of the faults that names of wires make. The functions do nothing: their contracts are the laws.
ghost use Rattle.ice_chip_laws.specs.FirstPins.{SharedPinIsFirst};
ghost use Rattle.ice_chip_laws.specs.FirstTwice.{NameOfTwoWiresIsFirst};

/// The lines of a name of two wires are those of two rows that give one name at one place with a tile to different
/// wires. No two rows before the later of them do so, and none before the earlier of them does so with the later one.
/// There are no such lines exactly where no two rows do so.
pub fn name_of_two_wires_is_first()
    ensures { NameOfTwoWiresIsFirst }
{}

/// The lines of a wire of two pins are those of two rows that give one wire input or output names of different pins,
/// where one global in several tiles is one pin. No two rows before the later of them do so, and none before the earlier
/// of them does so with the later one. There are no such lines exactly where no two rows do so.
pub fn shared_pin_is_first()
    ensures { SharedPinIsFirst }
{}
