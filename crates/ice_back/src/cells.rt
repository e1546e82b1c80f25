//! The cells of the netlist of a configured chip.
ghost use Rattle.std.specs.Prelude.{◌≡◌, ◌∷◌, [], true, false, codes, if◌then◌else◌, IfOk};
ghost use Rattle.ice_bits.specs.Configuration.{bits_of};
ghost use Rattle.ice_bits.specs.Settings.{set_at};
ghost use Rattle.ice_chip.specs.Names.{input_name};
ghost use Rattle.ice_net.specs.declared.kind.CellKind.TheVariants.{Cover, Flop};
ghost use Rattle.ice_decode.specs.Cells.{reset_of};
ghost use Rattle.ice_decode.specs.Reads.{carry_into};
ghost use Rattle.ice_back_laws.specs.Back.{reader, pin_reader, cell, signal_at, table_cell, carry_cell, flop_cell};
ghost use Rattle.ice_back_laws.specs.Numbers.{reader_of};
ghost use Rattle.ice_back_laws.specs.Roots.{StandsAt, cell_table, table_root};

use ice_back_points::{ConfiguredChip, table_root};
use ice_base::{NoMemory, SignalNo, TileAt};
use ice_chip::input_name;
use ice_decode::{cell_bit, reset_by, setting};
use ice_net::{Cell, CellKind, Signals};
use std::alloc::Global;

// These signals.
fn signals(alloc: Global, list: &[Option<SignalNo>]) -> Result<Signals, NoMemory>
    ensures { IfOk result (λ signals. signals ≡ list.now) }
{
    let mut items = Vec::new(alloc);
    items.extend_from_slice(list)?;
    Ok(Signals::from_vec(items))
}

/// A cell without a line.
pub(crate) fn made(
    alloc: Global,
    kind: CellKind,
    ins: &[Option<SignalNo>],
    outs: &[Option<SignalNo>],
) -> Result<Cell, NoMemory>
    ensures { IfOk result (λ made. made ≡ cell kind ins.now outs.now) }
{
    let ins = signals(alloc, ins)?;
    let outs = signals(alloc, outs)?;
    Ok(Cell {
        kind,
        line: 0,
        ins,
        outs,
    })
}

/// A cover without inputs that gives a level.
pub(crate) fn fixed_cell(alloc: Global, level: bool) -> Result<Cell, NoMemory>
    ensures { IfOk result (λ made. made
        ≡ cell (Cover (if level then 1 else 0) 0) [] (signal_at (if level then 1 else 0) ∷ [])) }
{
    let number = u8::from(level);
    let kind = CellKind::Cover {
        table: u16::from(number),
        width: 0,
    };
    made(alloc, kind, &[], &[Some(SignalNo(u32::from(number)))])
}

// What reads an input of a cell.
fn input(configured: &ConfiguredChip<'_>, tile: TileAt, cell: u8, number: u8) -> Option<SignalNo>
    ensures { result ≡ pin_reader configured.now.parts (bits_of configured.now.configuration)
        configured.now.configuration.extras configured.now.bonded.pads false tile
        (input_name cell number) }
{
    configured.pin_reader(false, tile, &input_name(cell, number))
}

/// The look-up table of a cell, where `table` is its table.
pub(crate) fn table_cell(
    alloc: Global,
    configured: &ConfiguredChip<'_>,
    table: u16,
    tile: TileAt,
    cell: u8,
) -> Result<Cell, NoMemory>
    requires stands { StandsAt configured.now.parts tile cell }
    requires table { table
        ≡ cell_table configured.now.parts (bits_of configured.now.configuration) tile cell }
    ensures { IfOk result (λ made.
        made ≡ table_cell configured.now.parts (bits_of configured.now.configuration)
        configured.now.configuration.extras configured.now.bonded.pads (tile, cell)) }
{
    let ins = [
        input(configured, tile, cell, 0),
        input(configured, tile, cell, 1),
        input(configured, tile, cell, 2),
        input(configured, tile, cell, 3),
    ];
    let out = Some(SignalNo(configured.cell_number(tile, cell)));
    made(alloc, CellKind::Lut { table }, &ins, &[out])
}

// What reads the carry into a cell.
fn carry_into(configured: &ConfiguredChip<'_>, tile: TileAt, cell: u8) -> Option<SignalNo>
    requires { StandsAt configured.now.parts tile cell }
    ensures { result ≡ reader configured.now.parts (bits_of configured.now.configuration)
        configured.now.configuration.extras configured.now.bonded.pads false
        (carry_into configured.now.parts tile cell) }
{
    if cell == 0 {
        return configured.pin_reader(false, tile, b"carry_in_mux");
    }
    configured.carry_reader(tile, cell - 1)
}

/// The carry of a cell.
pub(crate) fn carry_cell(
    alloc: Global,
    configured: &ConfiguredChip<'_>,
    tile: TileAt,
    cell: u8,
) -> Result<Cell, NoMemory>
    requires { StandsAt configured.now.parts tile cell }
    ensures { IfOk result (λ made.
        made ≡ carry_cell configured.now.parts (bits_of configured.now.configuration)
        configured.now.configuration.extras configured.now.bonded.pads (tile, cell)) }
{
    let ins = [
        input(configured, tile, cell, 1),
        input(configured, tile, cell, 2),
        carry_into(configured, tile, cell),
    ];
    let out = Some(SignalNo(configured.cell_number(tile, cell) + 2));
    made(alloc, CellKind::Carry, &ins, &[out])
}

// The flip-flop of a cell as a kind.
fn flop_kind(configured: &ConfiguredChip<'_>, tile: TileAt, cell: u8) -> CellKind
    ensures { result ≡ Flop
        (set_at configured.now.parts (bits_of configured.now.configuration) tile (codes "NegClk") 0)
        true (reset_of configured.now.parts (bits_of configured.now.configuration) tile cell) }
{
    let (chip, bits) = (configured.chip(), configured.bits());
    let set = cell_bit(chip, bits, tile, cell, 18);
    let at_once = cell_bit(chip, bits, tile, cell, 19);
    CellKind::Flop {
        falling: setting(chip, bits, tile, b"NegClk", 0),
        enable: true,
        reset: reset_by(set, at_once),
    }
}

// What reads the table of a cell.
fn datum(configured: &ConfiguredChip<'_>, tile: TileAt, cell: u8) -> Option<SignalNo>
    requires { StandsAt configured.now.parts tile cell }
    ensures { result ≡ reader_of configured.now.parts configured.now.bonded.pads false
        (table_root configured.now.parts (bits_of configured.now.configuration) tile cell) }
{
    configured.reader_of(
        false,
        table_root(configured.chip(), configured.bits(), tile, cell),
    )
}

/// The flip-flop of a cell.
pub(crate) fn flop_cell(
    alloc: Global,
    configured: &ConfiguredChip<'_>,
    tile: TileAt,
    cell: u8,
) -> Result<Cell, NoMemory>
    requires { StandsAt configured.now.parts tile cell }
    ensures { IfOk result (λ made.
        made ≡ flop_cell configured.now.parts (bits_of configured.now.configuration)
        configured.now.configuration.extras configured.now.bonded.pads (tile, cell)) }
{
    let ins = [
        configured.pin_reader(false, tile, b"lutff_global/clk"),
        datum(configured, tile, cell),
        configured.pin_reader(true, tile, b"lutff_global/cen"),
        configured.pin_reader(false, tile, b"lutff_global/s_r"),
    ];
    let out = Some(SignalNo(configured.cell_number(tile, cell) + 1));
    made(alloc, flop_kind(configured, tile, cell), &ins, &[out])
}
