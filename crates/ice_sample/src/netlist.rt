//! The sample netlist.
ghost use Rattle.std.specs.Prelude.{◌≡◌, ◌+◌, ◌^◌, ◌<◌, ◌++◌, ◌∷◌, [], OnOk, OnErr, decimal};
ghost use Rattle.ice_base.specs.Lines.{text_of_lines};
ghost use Rattle.ice_sample.specs.Netlist.{started_at, drawn, after, has_flip_flop, cell_name, names, name_at, found, picked, drawn_inputs, gate_line, table_line, flip_flop_line, flip_flop_lines, cell_lines, output_lines, head_lines, all_cell_lines, all_output_lines, sample_net_text, word};

use crate::text::{put_binary, put_line, put_worded};
use ice_base::NoMemory;
use rand_core::SeedableRng;
use rand_core::utils::NextWord;
use rand_pcg::Lcg64Xsh32;

// Whether a cell has a flip-flop.
fn has_flip_flop(cell: u32) -> bool
    ensures { result ≡ has_flip_flop cell }
{
    cell % 4 == 3
}

// The generator of words that a number gives.
#[tactic(auto, unfolding(crate::specs::Netlist::started_at))]
fn started_at(number: u64) -> Lcg64Xsh32
    ensures { result ≡ started_at number }
{
    Lcg64Xsh32::seed_from_u64(number)
}

// Writes a number behind a word.
fn put_lettered(text: &mut Vec<u8>, word: &[u8], number: u32) -> Result<(), NoMemory>
    ensures { OnOk result (text.new.items ≡ text.old.items ++ (word.now ++ decimal number)) }
{
    put_worded(text, word, u64::from(number))
}

// Writes what cells may read of a cell.
#[tactic(auto, unfolding(crate::specs::Netlist::cell_name))]
fn put_cell_name(text: &mut Vec<u8>, cell: u32) -> Result<(), NoMemory>
    ensures { OnOk result (text.new.items ≡ text.old.items ++ cell_name cell) }
{
    if has_flip_flop(cell) {
        put_lettered(text, b"q", cell)
    } else {
        put_lettered(text, b"n", cell)
    }
}

// Writes the name at a place among those that may be read.
#[tactic(auto, unfolding(crate::specs::Netlist::name_at))]
fn put_name(text: &mut Vec<u8>, place: u64) -> Result<(), NoMemory>
    requires { place < 2 ^ 32 + 8 }
    ensures { OnOk result (text.new.items ≡ text.old.items ++ name_at place) }
{
    if place < 8 {
        put_lettered(text, b"i", place as u32)
    } else {
        put_cell_name(text, (place - 8) as u32)
    }
}

// Writes the name at a place among those that may be read where there are so many cells.
#[tactic(auto, using(crate::proofs::Picking::found_name))]
fn put_name_of(text: &mut Vec<u8>, cells: u32, place: u64) -> Result<(), NoMemory>
    requires { place < 8 + cells }
    ensures { OnOk result (text.new.items ≡ text.old.items ++ found (names cells) place) }
{
    put_name(text, place)
}

// Writes the name that a word picks where there are so many cells.
fn put_picked(text: &mut Vec<u8>, cells: u32, word: u32) -> Result<(), NoMemory>
    ensures { OnOk result (text.new.items ≡ text.old.items ++ picked (names cells) word) }
{
    let count = u64::from(cells) + 8;
    put_name_of(text, cells, count - 1 - u64::from(word) % count.min(16))
}

// Writes an input of a cell, from its name on.
fn put_input(text: &mut Vec<u8>, input: &[u8], cell: u32, word: u32) -> Result<(), NoMemory>
    ensures { OnOk result
        (text.new.items ≡ text.old.items ++ input.now ++ picked (names cell) word) }
{
    text.extend_from_slice(input)?;
    put_picked(text, cell, word)
}

// Draws a word.
#[tactic(auto, unfolding(crate::specs::Netlist::drawn))]
fn draw(rng: &mut Lcg64Xsh32) -> u32
    ensures { (result, rng.new) ≡ drawn rng.old }
{
    rng.next_word()
}

// Writes the inputs of a cell.
fn put_inputs(text: &mut Vec<u8>, rng: &mut Lcg64Xsh32, cell: u32) -> Result<(), NoMemory>
    ensures written { OnOk result (text.new.items ≡ text.old.items ++ drawn_inputs cell rng.old) }
    ensures drawn { OnOk result (rng.new ≡ after 4 rng.old) }
{
    put_input(text, b" I0=", cell, draw(rng))?;
    put_input(text, b" I1=", cell, draw(rng))?;
    put_input(text, b" I2=", cell, draw(rng))?;
    put_input(text, b" I3=", cell, draw(rng))?;
    Ok(())
}

// Writes the line of a cell's table.
fn put_gate(text: &mut Vec<u8>, rng: &mut Lcg64Xsh32, cell: u32) -> Result<(), NoMemory>
    ensures written { OnOk result (text.new.items
        ≡ text.old.items ++ text_of_lines (gate_line cell (drawn_inputs cell rng.old) ∷ [])) }
    ensures drawn { OnOk result (rng.new ≡ after 4 rng.old) }
{
    text.extend_from_slice(b".gate SB_LUT4")?;
    put_inputs(text, rng, cell)?;
    put_lettered(text, b" O=n", cell)?;
    text.push(b'\n')?;
    Ok(())
}

// Writes the line of what a table holds.
fn put_table(text: &mut Vec<u8>, word: u32) -> Result<(), NoMemory>
    ensures { OnOk result
        (text.new.items ≡ text.old.items ++ text_of_lines (table_line word ∷ [])) }
{
    text.extend_from_slice(b".param LUT_INIT ")?;
    put_binary(text, 16, u64::from(word))?;
    text.push(b'\n')?;
    Ok(())
}

// Writes the line of the flip-flop of a cell that has one.
fn put_flip_flop(text: &mut Vec<u8>, cell: u32) -> Result<(), NoMemory>
    ensures { OnOk result
        (text.new.items ≡ text.old.items ++ text_of_lines (flip_flop_line cell ∷ [])) }
{
    put_lettered(text, b".gate SB_DFF C=clk_g D=n", cell)?;
    put_lettered(text, b" Q=q", cell)?;
    text.push(b'\n')?;
    Ok(())
}

// Writes the line of the flip-flop of a cell, if it has one.
fn put_flip_flop_of(text: &mut Vec<u8>, cell: u32) -> Result<(), NoMemory>
    ensures { OnOk result
        (text.new.items ≡ text.old.items ++ text_of_lines (flip_flop_lines cell)) }
{
    if has_flip_flop(cell) {
        put_flip_flop(text, cell)?;
    }
    Ok(())
}

// Writes the lines of a cell.
fn put_cell(text: &mut Vec<u8>, rng: &mut Lcg64Xsh32, cell: u32) -> Result<(), NoMemory>
    ensures written { OnOk result
        (text.new.items ≡ text.old.items ++ text_of_lines (cell_lines cell rng.old)) }
    ensures drawn { OnOk result (rng.new ≡ after 5 rng.old) }
{
    put_gate(text, rng, cell)?;
    put_table(text, draw(rng))?;
    put_flip_flop_of(text, cell)?;
    Ok(())
}

// Writes the lines of all cells.
fn put_cells(text: &mut Vec<u8>, number: u64, cells: u32) -> Result<(), NoMemory>
    ensures { OnOk result (text.new.items
        ≡ text.old.items ++ text_of_lines (all_cell_lines (started_at number) cells)) }
{
    let mut rng = started_at(number);
    for cell in 0..cells {
        put_cell(text, &mut rng, cell)?;
    }
    Ok(())
}

// Writes the lines of an output.
fn put_output(text: &mut Vec<u8>, cells: u32, output: u32) -> Result<(), NoMemory>
    requires { output < 8 }
    ensures { OnOk result
        (text.new.items ≡ text.old.items ++ text_of_lines (output_lines (names cells) output)) }
{
    text.extend_from_slice(b".names ")?;
    put_name_of(text, cells, u64::from(cells) + u64::from(output))?;
    put_lettered(text, b" o", output)?;
    text.extend_from_slice(b"\n1 1\n")?;
    Ok(())
}

// Writes the lines of all outputs.
fn put_outputs(text: &mut Vec<u8>, cells: u32) -> Result<(), NoMemory>
    ensures { OnOk result
        (text.new.items ≡ text.old.items ++ text_of_lines (all_output_lines (names cells))) }
{
    for output in 0..8 {
        put_output(text, cells, output)?;
    }
    Ok(())
}

// Writes the lines before the cells.
#[tactic(auto, unfolding(crate::specs::Netlist::head_lines))]
fn put_head(text: &mut Vec<u8>) -> Result<(), NoMemory>
    ensures { OnOk result (text.new.items ≡ text.old.items ++ text_of_lines head_lines) }
{
    put_line(text, b".model sample")?;
    put_line(text, b".inputs clk i0 i1 i2 i3 i4 i5 i6 i7")?;
    put_line(text, b".outputs o0 o1 o2 o3 o4 o5 o6 o7")?;
    put_line(
        text,
        b".gate SB_GB USER_SIGNAL_TO_GLOBAL_BUFFER=clk GLOBAL_BUFFER_OUTPUT=clk_g",
    )
}

// Writes the text of the netlist.
fn put_net(text: &mut Vec<u8>, number: u64, cells: u32) -> Result<(), NoMemory>
    ensures { OnOk result (text.new.items ≡ text.old.items ++ sample_net_text number cells) }
{
    put_head(text)?;
    put_cells(text, number, cells)?;
    put_outputs(text, cells)?;
    put_line(text, b".end")
}

/// Appends the text of the sample netlist of this number and so many cells: a BLIF text with a clock, eight inputs, eight
/// outputs and the cells, of which every fourth has a flip-flop. What the cells read and what their tables hold is drawn by the
/// generator that the number starts. The text takes about 100 bytes for each cell, and is made apart from what it is appended
/// to, so that want of memory changes nothing.
///
/// # Errors
/// Want of memory alone.
pub fn sample_net(number: u64, cells: u32, out: &mut Vec<u8>) -> Result<(), NoMemory>
    ensures ok { OnOk result (out.new.items ≡ out.old.items ++ sample_net_text number cells) }
    ensures err { OnErr result (out.new.items ≡ out.old.items) }
{
    let mut text = Vec::new(*out.allocator());
    put_net(&mut text, number, cells)?;
    out.extend_from_slice(&text)?;
    Ok(())
}
