//! Lines of a netlist text.
ghost use Rattle.std.specs.Prelude.{◌≡◌, ◌<◌, ◌∷◌, [], ◌++◌, length, OnOk};
ghost use Rattle.ice_blif_write.specs.Text.{ends_in, guarded, behind_space};

use ice_base::NoMemory;

// Writes a word behind a space.
pub(crate) fn put_word(out: &mut Vec<u8>, word: &[u8]) -> Result<(), NoMemory>
    ensures { OnOk result (out.new.items ≡ out.old.items ++ behind_space word.now) }
{
    out.push(b' ')?;
    out.extend_from_slice(word)?;
    Ok(())
}

// Whether the last byte is a backslash.
fn ends_in_backslash(line: &[u8]) -> bool
    ensures { result ≡ ends_in 92 line.now }
{
    match line.last() {
        None => false,
        Some(last) => *last == b'\\',
    }
}

// Ends a line. Where its last byte is a backslash, a blank and `#` stand behind it, so that it does not go on in the
// next line.
pub(crate) fn end_line(out: &mut Vec<u8>) -> Result<(), NoMemory>
    ensures { OnOk result (out.new.items ≡ guarded out.old.items ++ 10 ∷ []) }
{
    if ends_in_backslash(out.as_slice()) {
        out.extend_from_slice(b" #")?;
    }
    out.push(b'\n')?;
    Ok(())
}
