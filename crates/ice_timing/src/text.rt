//! The text of a longest path.
ghost use Rattle.std.specs.Prelude.{◌≡◌, ◌++◌, ◌∷◌, [], map, OnOk, IfOk, option_map, decimal};
ghost use Rattle.ice_base.specs.Lines.{text_of_lines};
ghost use Rattle.ice_timing.specs.PathText.{tile_words, place, point_words, end_words, reached_line, point_line, longest_line, path_lines, path_text};

use crate::{End, TimedPath};
use ice_base::{NoMemory, TileAt};
use ice_decode::Point;
use itoa::Buffer;
use std::alloc::Global;

// Writes a number behind a space.
fn put_number(text: &mut Vec<u8>, number: u64) -> Result<(), NoMemory>
    ensures { OnOk result (text.new.items ≡ text.old.items ++ 32 ∷ decimal number) }
{
    text.push(b' ')?;
    text.extend_from_slice(Buffer::new().format(number).as_bytes())?;
    Ok(())
}

// Writes a tile.
fn put_tile(text: &mut Vec<u8>, word: &[u8], tile: TileAt) -> Result<(), NoMemory>
    ensures { OnOk result (text.new.items ≡ text.old.items ++ tile_words word.now tile) }
{
    text.extend_from_slice(word)?;
    put_number(text, u64::from(tile.x))?;
    put_number(text, u64::from(tile.y))?;
    Ok(())
}

// Writes a place in a tile.
fn put_place(text: &mut Vec<u8>, word: &[u8], tile: TileAt, number: u8) -> Result<(), NoMemory>
    ensures { OnOk result (text.new.items ≡ text.old.items ++ place word.now tile number) }
{
    put_tile(text, word, tile)?;
    put_number(text, u64::from(number))?;
    Ok(())
}

// Writes what a point is.
fn put_point(text: &mut Vec<u8>, point: Point) -> Result<(), NoMemory>
    ensures { OnOk result (text.new.items ≡ text.old.items ++ point_words point) }
{
    match point {
        Point::Wire(wire) => {
            text.extend_from_slice(b"wire")?;
            put_number(text, u64::from(wire.0))
        }
        Point::Carry { tile, cell } => put_place(text, b"carry", tile, cell),
    }
}

// Writes what an end is.
fn put_end(text: &mut Vec<u8>, end: End) -> Result<(), NoMemory>
    ensures { OnOk result (text.new.items ≡ text.old.items ++ end_words end) }
{
    match end {
        End::Flop { tile, cell } => put_place(text, b"flop", tile, cell),
        End::Pad(pad) => put_place(text, b"pad", pad.tile, pad.pio),
        End::Ram { lower } => put_tile(text, b"ram", lower),
    }
}

// Ends the line of what is reached at this moment.
fn put_moment(text: &mut Vec<u8>, at: u64) -> Result<(), NoMemory>
    ensures { OnOk result (text.new.items ≡ text.old.items ++ reached_line [] at ++ 10 ∷ []) }
{
    text.extend_from_slice(b" at")?;
    put_number(text, at)?;
    text.push(b'\n')?;
    Ok(())
}

// Writes the line of a point.
fn put_point_line(text: &mut Vec<u8>, point: Point, at: u64) -> Result<(), NoMemory>
    ensures { OnOk result
        (text.new.items ≡ text.old.items ++ text_of_lines (point_line (point, at) ∷ [])) }
{
    put_point(text, point)?;
    put_moment(text, at)?;
    Ok(())
}

// Writes the lines of points.
fn put_points(text: &mut Vec<u8>, points: &[(Point, u64)]) -> Result<(), NoMemory>
    ensures { OnOk result
        (text.new.items ≡ text.old.items ++ text_of_lines (map point_line points.now)) }
{
    for point in points {
        put_point_line(text, point.0, point.1)?;
    }
    Ok(())
}

// Writes the line of an end.
fn put_end_line(text: &mut Vec<u8>, end: End, at: u64) -> Result<(), NoMemory>
    ensures { OnOk result
        (text.new.items ≡ text.old.items ++ text_of_lines (reached_line (end_words end) at ∷ [])) }
{
    put_end(text, end)?;
    put_moment(text, at)?;
    Ok(())
}

// Writes the line of a length.
fn put_length(text: &mut Vec<u8>, length: u64) -> Result<(), NoMemory>
    ensures { OnOk result
        (text.new.items ≡ text.old.items ++ text_of_lines (longest_line length ∷ [])) }
{
    text.extend_from_slice(b"longest")?;
    put_number(text, length)?;
    text.push(b'\n')?;
    Ok(())
}

// Writes the text.
fn put_path(text: &mut Vec<u8>, found: &Option<TimedPath>) -> Result<(), NoMemory>
    ensures { OnOk result (text.new.items ≡ text.old.items ++ path_text found.now) }
{
    let Some(path) = found else {
        return put_length(text, 0);
    };
    put_length(text, path.at)?;
    put_points(text, &path.points)?;
    put_end_line(text, path.end, path.at)?;
    Ok(())
}

/// The text of a longest path: its length, each of its points with when the signal is there, and its end; without a path the length 0
/// alone.
///
/// # Errors
/// Want of memory alone.
pub fn path_text(alloc: Global, found: &Option<TimedPath>) -> Result<Vec<u8>, NoMemory>
    ensures { IfOk result (λ text. text.items ≡ path_text found.now) }
{
    let mut text = Vec::new(alloc);
    put_path(&mut text, found)?;
    Ok(text)
}
