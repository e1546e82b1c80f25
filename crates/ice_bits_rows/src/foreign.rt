//! The bits of foreign functions, collected once.
ghost use Rattle.std.specs.Prelude.{◌≡◌, ◌&&◌, ◌||◌, Some, map, IfOk, OnOk};
ghost use Rattle.ice_base.specs.declared.bit.BitAt.{BitAt as Bit};
ghost use Rattle.ice_chip.specs.Functions.{is_foreign, same_kind};
ghost use Rattle.ice_chip.specs.Views.{function_view};
ghost use Rattle.ice_chip.specs.declared.rows.TileKind.TheVariants.{Io, RamBottom, RamTop};
ghost use Rattle.ice_bits_rows.specs.Bundles.{has_bit, is_of_function, AreForeign};
ghost use Rattle.ice_bits_rows.specs.ForeignBits.{AreOfForeign};

use ice_base::{BitAt, NoMemory};
use ice_chip::{Chip, Function, TileKind, is_foreign, same_kind};
use std::alloc::Global;

/// The bits of the foreign functions of the three kinds of tiles that have such functions.
#[derive(Drop)]
pub struct ForeignBits {
    /// Those of IO tiles.
    pub io: Vec<BitAt>,
    /// Those of the lower tiles of block RAMs.
    pub ram_bottom: Vec<BitAt>,
    /// Those of their upper tiles.
    pub ram_top: Vec<BitAt>,
}

// Whether this is a foreign function of the kind of tile.
fn is_foreign_of(kind: TileKind, function: &Function) -> bool
    ensures { result
        ≡ (same_kind function.now.kind kind && is_foreign function.now.kind function.now.name) }
{
    same_kind(function.kind, kind) && is_foreign(function.kind, function.name.as_bytes())
}

// Adds the bits of a function, where it is a foreign one of the kind of tile.
fn add_function(bits: &mut Vec<BitAt>, kind: TileKind, function: &Function) -> Result<(), NoMemory>
    ensures { OnOk result ((b : Bit) → has_bit bits.new.items b ≡ (has_bit bits.old.items b
        || ((same_kind function.now.kind kind && is_foreign function.now.kind function.now.name)
        && has_bit function.now.bits.items b))) }
{
    if !is_foreign_of(kind, function) {
        return Ok(());
    }
    bits.extend_from_slice(function.bits.as_slice())?;
    Ok(())
}

// The bits of the foreign functions of a kind of tile.
fn bits_of_kind(
    alloc: Global,
    functions: &[Function],
    kind: TileKind,
) -> Result<Vec<BitAt>, NoMemory>
    ensures { IfOk result (λ bits.
        AreForeign (map function_view functions.now) kind bits.items) }
{
    let mut bits = Vec::new(alloc);
    for function in functions {
        add_function(&mut bits, kind, function)?;
    }
    Ok(bits)
}

/// The bits of the foreign functions among these.
///
/// # Errors
/// Want of memory alone.
pub fn foreign_bits(alloc: Global, functions: &[Function]) -> Result<ForeignBits, NoMemory>
    ensures { IfOk result (AreOfForeign (map function_view functions.now)) }
{
    let io = bits_of_kind(alloc, functions, TileKind::Io)?;
    let ram_bottom = bits_of_kind(alloc, functions, TileKind::RamBottom)?;
    let ram_top = bits_of_kind(alloc, functions, TileKind::RamTop)?;
    Ok(ForeignBits {
        io,
        ram_bottom,
        ram_top,
    })
}

/// Those of these bits of foreign functions that are of a kind of tile. Of all kinds logic tiles alone have no foreign functions.
pub fn foreign_of<'a>(chip: &Chip, foreign: &'a ForeignBits, kind: TileKind) -> &'a [BitAt]
    requires { AreOfForeign chip.now.functions foreign.now }
    ensures { (b : Bit) → has_bit result.now b ≡ is_of_function chip.now.functions (Some kind) b }
{
    let _chip = chip;
    match kind {
        TileKind::Io => &foreign.io,
        TileKind::Logic => &[],
        TileKind::RamBottom => &foreign.ram_bottom,
        TileKind::RamTop => &foreign.ram_top,
    }
}

/// The bits of foreign functions of the kind of a tile.
pub fn foreign_in<'a>(chip: &Chip, foreign: &'a ForeignBits, kind: Option<TileKind>) -> &'a [BitAt]
    requires { AreOfForeign chip.now.functions foreign.now }
    ensures { (b : Bit) → has_bit result.now b ≡ is_of_function chip.now.functions kind b }
{
    match kind {
        None => &[],
        Some(kind) => foreign_of(chip, foreign, kind),
    }
}
