//! Laws of the netlist of a configured chip. The functions do nothing: their contracts are the laws.
ghost use Rattle.ice_back_laws.specs.Law.{NetlistHasNoLoop, NetlistIsConnected, NetlistIsSound, NetlistShowsWhatBitsShow, PointsHaveTheirRootsLevels};

use ice_chip_laws::lookups_are_lawful;

/// For every list of levels the netlist of bits drives at its ports, which are the pads of the package in order, what the chip drives
/// there, where the bits have no fault and the package is one of the chip's.
pub fn netlist_shows_what_bits_show()
    ensures { NetlistShowsWhatBitsShow }
{
    lookups_are_lawful();
}

/// What the netlist of bits shows is defined: no signals of it depend on one another in a circle.
pub fn netlist_has_no_loop()
    ensures { NetlistHasNoLoop }
{
    lookups_are_lawful();
}

/// In the netlist of bits each input in use has a driver, each SB_IO is at a port, and each port has an SB_IO.
pub fn netlist_is_connected()
    ensures { NetlistIsConnected }
{
    lookups_are_lawful();
}

/// The netlist of bits has none of the faults of netlists: beside the above, no signal is driven twice, no port has two SB_IO, and each
/// pin type is known.
pub fn netlist_is_sound()
    ensures { NetlistIsSound }
{
    lookups_are_lawful();
}

/// At each moment the level of a point of the chip is the level of its root, where the points have an order of evaluation.
pub fn points_have_their_roots_levels()
    ensures { PointsHaveTheirRootsLevels }
{}
