//! The root of a point, by the roots of the wires that pass their levels on to it.
ghost use Rattle.std.specs.Prelude.{◌≡◌, ◌<◌, ◌∷◌, [], false, None, Some, map, slice_index_or, if◌then◌else◌};
ghost use Rattle.ice_base_values.specs.System.{reading};
ghost use Rattle.ice_bits.specs.Configuration.{bits_of};
ghost use Rattle.ice_net.specs.Meaning.{number_of};
ghost use Rattle.ice_decode.specs.Cells.{cell_bit};
ghost use Rattle.ice_decode.specs.Direct.{takes_pad};
ghost use Rattle.ice_decode.specs.Meaning.{passes};
ghost use Rattle.ice_decode.specs.Pads.{is_enabled};
ghost use Rattle.ice_decode.specs.Reads.{global_feed};
ghost use Rattle.ice_decode.specs.Refusals.{IsCircuitOf};
ghost use Rattle.ice_decode.specs.declared.point.Point.TheVariants.{Wire};
ghost use Rattle.ice_decode.specs.declared.role.Role.TheVariants.{Output};
ghost use Rattle.ice_back_laws.specs.declared.root.LevelRoot.TheVariants.{Fixed, Input, Taken, Level};
ghost use Rattle.ice_back_laws.specs.Roots.{cell_table, table_root, carry_root, pad_number, bonded_root, enabled_root, pad_root, fed_root, role_root, first_root};
ghost use Rattle.ice_back_points.specs.Filling.{root_in, either_root, own_root};

use ice_back_laws::LevelRoot;
use ice_base::{TileAt, WireNo};
use ice_bits::Bits;
use ice_chip::{Chip, Pad};
use ice_decode::{
    Circuit, Point, Role, Switch, at_pin, cell_bit, has_carry, has_flop, has_input_register,
    is_enabled, passes, setting,
};
use indexmap::IndexSet;

// A bit of a cell, as a number.
fn digit(chip: &Chip, bits: &Bits, tile: TileAt, cell: u8, place: usize) -> u16
    ensures value { result
        ≡ (if cell_bit chip.now (bits_of bits.now) tile cell place then 1 else 0) }
    ensures small { result < 2 }
{
    u16::from(cell_bit(chip, bits, tile, cell, place))
}

// The number of four bits of a cell, the first the lowest.
fn digits(
    chip: &Chip,
    bits: &Bits,
    tile: TileAt,
    cell: u8,
    low: (usize, usize),
    high: (usize, usize),
) -> u16
    ensures value { result ≡ number_of (map (cell_bit chip.now (bits_of bits.now) tile cell)
        (low.0 ∷ low.1 ∷ high.0 ∷ high.1 ∷ [])) }
    ensures small { result < 16 }
{
    let lower = digit(chip, bits, tile, cell, low.0) + 2 * digit(chip, bits, tile, cell, low.1);
    let upper = digit(chip, bits, tile, cell, high.0) + 2 * digit(chip, bits, tile, cell, high.1);
    lower + 4 * upper
}

/// The table of a cell: bit j is its entry for the inputs that make the number j.
pub fn cell_table(chip: &Chip, bits: &Bits, tile: TileAt, cell: u8) -> u16
    ensures { result ≡ cell_table chip.now (bits_of bits.now) tile cell }
{
    let first = digits(chip, bits, tile, cell, (4, 14), (15, 5));
    let second = digits(chip, bits, tile, cell, (6, 16), (17, 7));
    let third = digits(chip, bits, tile, cell, (3, 13), (12, 2));
    let fourth = digits(chip, bits, tile, cell, (1, 11), (10, 0));
    first + 16 * (second + 16 * (third + 16 * fourth))
}

/// The root of a table: one without a bit gives 0.
pub fn table_root(chip: &Chip, bits: &Bits, tile: TileAt, cell: u8) -> LevelRoot
    ensures { result ≡ table_root chip.now (bits_of bits.now) tile cell }
{
    if cell_table(chip, bits, tile, cell) == 0 {
        return LevelRoot::Fixed(false);
    }
    LevelRoot::Table { tile, cell }
}

/// The root of a carry: one that isn't enabled gives 0.
pub(crate) fn carry_root(chip: &Chip, bits: &Bits, tile: TileAt, cell: u8) -> LevelRoot
    ensures { result ≡ carry_root chip.now (bits_of bits.now) tile cell }
{
    if has_carry(chip, bits, tile, cell) {
        return LevelRoot::Sum { tile, cell };
    }
    LevelRoot::Fixed(false)
}

// The root of the output of a cell.
fn output_root(chip: &Chip, bits: &Bits, tile: TileAt, cell: u8) -> LevelRoot
    ensures { result ≡ role_root chip.now (bits_of bits.now) [] [] (Output tile cell) [] }
{
    if has_flop(chip, bits, tile, cell) {
        return LevelRoot::Register { tile, cell };
    }
    table_root(chip, bits, tile, cell)
}

// ---- pads
// The root of what the pad of a number gives; a pad outside the package has none.
fn given_root(number: Option<usize>) -> LevelRoot
    ensures { result ≡ bonded_root Input number }
{
    match number {
        None => LevelRoot::Fixed(false),
        Some(number) => LevelRoot::Input(number),
    }
}

// The root of what the register of the pad's input keeps.
fn kept_root(number: Option<usize>) -> LevelRoot
    ensures { result ≡ bonded_root Taken number }
{
    match number {
        None => LevelRoot::Fixed(false),
        Some(number) => LevelRoot::Taken(number),
    }
}

// The root of what the pad gives to globals.
fn level_root(number: Option<usize>) -> LevelRoot
    ensures { result ≡ bonded_root Level number }
{
    match number {
        None => LevelRoot::Fixed(false),
        Some(number) => LevelRoot::Level(number),
    }
}

// The number of a pad of the package whose input buffer is enabled.
fn enabled_number(chip: &Chip, bits: &Bits, pads: &IndexSet<Pad>, pad: Pad) -> Option<usize>
    ensures { result ≡ (if is_enabled chip.now (bits_of bits.now) pad
        then pad_number pad pads.now.keys else None) }
{
    if !is_enabled(chip, bits, pad) {
        return None;
    }
    pads.get_index_of(&pad)
}

// The root of the wire of a pad whose input has no register.
fn plain_root(chip: &Chip, bits: &Bits, pads: &IndexSet<Pad>, pad: Pad) -> LevelRoot
    ensures { result ≡ enabled_root chip.now (bits_of bits.now) pads.now.keys Input pad }
{
    given_root(enabled_number(chip, bits, pads, pad))
}

// The root of the wire of a pad whose input has one.
fn taken_root(chip: &Chip, bits: &Bits, pads: &IndexSet<Pad>, pad: Pad) -> LevelRoot
    ensures { result ≡ enabled_root chip.now (bits_of bits.now) pads.now.keys Taken pad }
{
    kept_root(enabled_number(chip, bits, pads, pad))
}

// The root of the wire of a pad.
fn pad_root(chip: &Chip, bits: &Bits, pads: &IndexSet<Pad>, pad: Pad) -> LevelRoot
    ensures { result ≡ pad_root chip.now (bits_of bits.now) pads.now.keys pad }
{
    if has_input_register(chip, bits, pad) {
        return taken_root(chip, bits, pads, pad);
    }
    plain_root(chip, bits, pads, pad)
}

// The root of a global that has the level of this pad.
fn feeding_root(chip: &Chip, bits: &Bits, pads: &IndexSet<Pad>, pad: Pad) -> LevelRoot
    ensures { result ≡ enabled_root chip.now (bits_of bits.now) pads.now.keys Level pad }
{
    level_root(enabled_number(chip, bits, pads, pad))
}

// The root of a global that has the level of a pad, if there is one for it.
fn fed_root(chip: &Chip, bits: &Bits, pads: &IndexSet<Pad>, pad: Option<Pad>) -> LevelRoot
    ensures { result ≡ fed_root chip.now (bits_of bits.now) pads.now.keys pad }
{
    match pad {
        None => LevelRoot::Fixed(false),
        Some(pad) => feeding_root(chip, bits, pads, pad),
    }
}

// ---- wires
/// The root of a wire, where `roots` has those of wires by their numbers.
pub(crate) fn root_at(roots: &[LevelRoot], wire: WireNo) -> LevelRoot
    ensures { result ≡ slice_index_or roots.now wire.0 (Fixed false) }
{
    match roots.get(wire.0 as usize) {
        Some(root) => *root,
        None => LevelRoot::Fixed(false),
    }
}

// The root of a point, where `roots` has those of wires by their numbers.
fn root_in(chip: &Chip, bits: &Bits, roots: &[LevelRoot], point: Point) -> LevelRoot
    ensures { result ≡ root_in chip.now (bits_of bits.now) roots.now point }
{
    match point {
        Point::Wire(wire) => root_at(roots, wire),
        Point::Carry { tile, cell } => carry_root(chip, bits, tile, cell),
    }
}

// The root of a global that has no level of a pad, which is that of what feeds it.
fn feed_root(chip: &Chip, bits: &Bits, roots: &[LevelRoot], global: u8) -> LevelRoot
    ensures { result ≡ reading (Fixed false) (root_in chip.now (bits_of bits.now) roots.now)
        (global_feed chip.now global) }
{
    let Some(tile) = chip.global_of(global) else {
        return LevelRoot::Fixed(false);
    };
    match at_pin(chip, tile, b"fabout") {
        None => LevelRoot::Fixed(false),
        Some(point) => root_in(chip, bits, roots, point),
    }
}

// The root of a global, by whether it has the level of a pad.
fn either_root(
    chip: &Chip,
    bits: &Bits,
    pads: &IndexSet<Pad>,
    roots: &[LevelRoot],
    global: u8,
    takes_pad: bool,
) -> LevelRoot
    ensures { result
        ≡ either_root chip.now (bits_of bits.now) pads.now.keys roots.now global takes_pad }
{
    if takes_pad {
        return fed_root(chip, bits, pads, chip.gbufpin_of(global));
    }
    feed_root(chip, bits, roots, global)
}

// The root of a global.
fn global_root(
    chip: &Chip,
    circuit: &Circuit,
    pads: &IndexSet<Pad>,
    roots: &[LevelRoot],
    global: u8,
) -> LevelRoot
    requires { IsCircuitOf chip.now circuit.now.configuration circuit.now }
    ensures { result ≡ either_root chip.now (bits_of circuit.now.configuration) pads.now.keys
        roots.now global (takes_pad chip.now circuit.now.configuration.extras global) }
{
    either_root(
        chip,
        circuit.bits(),
        pads,
        roots,
        global,
        circuit.takes_pad(global),
    )
}

/// The root of a wire without a row that is on, by its role, where `roots` has the root of what feeds it.
pub(crate) fn role_root(
    chip: &Chip,
    circuit: &Circuit,
    pads: &IndexSet<Pad>,
    roots: &[LevelRoot],
    role: Role,
) -> LevelRoot
    requires { IsCircuitOf chip.now circuit.now.configuration circuit.now }
    ensures { result ≡ own_root chip.now (bits_of circuit.now.configuration)
        circuit.now.configuration.extras pads.now.keys roots.now role }
{
    let bits = circuit.bits();
    match role {
        Role::Plain => LevelRoot::Fixed(false),
        Role::Output { tile, cell } => output_root(chip, bits, tile, cell),
        Role::LookUp { tile, cell } => table_root(chip, bits, tile, cell),
        Role::CarryOut { tile, cell } => carry_root(chip, bits, tile, cell),
        Role::PadInput(pad) => pad_root(chip, bits, pads, pad),
        Role::RamOutput(_) => LevelRoot::Fixed(false),
        Role::Global(global) => global_root(chip, circuit, pads, roots, global),
        Role::CarryIn(tile) => LevelRoot::Fixed(setting(chip, bits, tile, b"CarryInSet", 0)),
        Role::ClockEnable => LevelRoot::Fixed(true),
    }
}

/// The root of a wire behind a row that is on: that of its source, where that passes the row.
pub(crate) fn switch_root(
    chip: &Chip,
    bits: &Bits,
    roots: &[LevelRoot],
    switch: Switch,
) -> LevelRoot
    requires { switch.source.0 < chip.now.wires }
    ensures { result
        ≡ first_root (map (reading (Fixed false) (root_in chip.now (bits_of bits.now) roots.now))
        (if passes chip.now (bits_of bits.now) switch then Some (Wire switch.source) ∷ []
        else [])) }
{
    if passes(chip, bits, &switch) {
        return root_in(chip, bits, roots, Point::Wire(switch.source));
    }
    LevelRoot::Fixed(false)
}
