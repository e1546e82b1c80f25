//! Laws of rows that are wanted, and of functions that are set. The functions do nothing: their contracts are the laws.
ghost use Rattle.std.specs.Prelude.{◌≡◌, ℕ, List, Some, true, false};
ghost use Rattle.ice_base.specs.declared.bit.BitAt.{BitAt};
ghost use Rattle.ice_base.specs.declared.number.TileAt.{TileAt};
ghost use Rattle.ice_base_values.specs.Order.{Has};
ghost use Rattle.ice_chip.specs.Functions.{is_read};
ghost use Rattle.ice_chip.specs.Lookups.{kind_at};
ghost use Rattle.ice_chip.specs.declared.rows.TileKind.{TileKind};
ghost use Rattle.ice_bits.specs.Configuration.{Bits};
ghost use Rattle.ice_bits.specs.Settings.{function_bit};
ghost use Rattle.ice_decode.specs.declared.driver.Switch.{Switch};
ghost use Rattle.ice_emit_rows_laws.specs.Wanted.{AreWanted, AreNoGroups, set_bits, IsWired};
ghost use Rattle.ice_emit_rows_laws.specs.Settings.{Setting, AreRead, function_bits};

use ice_chip::Chip;
use ice_chip_laws::chip_is_lawful;

/// Where the bits of sound rows into different wires are set, and beside them none that is a group's, each of these rows drives
/// its wire, every other wire has no driver, and no other row is on.
pub fn wanted_rows_drive(chip: &Chip)
    ensures { (wanted : List Switch) (more : Bits) → AreWanted chip.now wanted
        → AreNoGroups chip.now more → IsWired chip.now (set_bits chip.now wanted more) wanted }
{
    chip.is_chip();
    chip_is_lawful(chip);
}

/// Where bits of functions are set that are read in their tiles, none of these bits is a group's, and the bit of such a function is
/// set exactly where its setting is listed.
pub fn settings_are_read(chip: &Chip)
    ensures apart { (settings : List Setting) → AreRead chip.now settings
        → AreNoGroups chip.now (function_bits chip.now settings) }
    ensures set { (settings : List Setting) (t : TileAt) (kind : TileKind) (name : List ℕ)
        (k : ℕ) (b : BitAt)
        → AreRead chip.now settings → kind_at chip.now t ≡ Some kind → is_read kind name ≡ true
        → function_bit chip.now t name k ≡ Some b
        → Has settings (record { tile = t; name = name; number = k })
        → function_bits chip.now settings t b ≡ true }
    ensures other { (settings : List Setting) (t : TileAt) (kind : TileKind) (name : List ℕ)
        (k : ℕ) (b : BitAt)
        → AreRead chip.now settings → kind_at chip.now t ≡ Some kind → is_read kind name ≡ true
        → function_bit chip.now t name k ≡ Some b
        → (Has settings (record { tile = t; name = name; number = k }) → ⊥)
        → function_bits chip.now settings t b ≡ false }
{
    chip_is_lawful(chip);
}
