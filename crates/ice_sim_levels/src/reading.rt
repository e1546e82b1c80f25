//! Reading a text of levels.
ghost use Rattle.std.specs.Prelude.{◌≡◌, ◌≤◌, ◌+◌, ◌*◌, ◌++◌, ◌∷◌, [], true, map, length, All, Some, None, Ok, IfOk, IfErr, option_map, if◌then◌else◌};
ghost use Rattle.ice_base.specs.Cursors.{line_view};
ghost use Rattle.ice_base.specs.Lists.{all_known};
ghost use Rattle.ice_sim_levels.specs.Steps.{steps_of};
ghost use Rattle.ice_sim_levels.specs.LevelTexts.{digit_level, levels_and, word_levels, line_steps, then_steps, levels_of, Gives, IsRefusal, HasWidth};

use crate::{LevelFault, Levels};
use ice_base::{Line, NoMemory, lines_of, plain_words_of};
use std::alloc::Global;

// The level that a digit writes.
fn digit_level(digit: u8) -> Option<bool>
    ensures { result ≡ digit_level digit }
{
    match digit {
        b'0' => Some(false),
        b'1' => Some(true),
        _ => None,
    }
}

// Adds the levels that the digits of a word write. Where one of them is no digit, some may have been added.
#[tactic(auto, using(crate::proofs::Digits::digit_added, crate::proofs::Digits::digit_refused, crate::proofs::Digits::digits_end))]
fn add_digits(levels: &mut Vec<bool>, word: &[u8]) -> Result<bool, NoMemory>
    ensures { IfOk result (λ all. (if all then Some levels.new.items else None)
        ≡ levels_and levels.old.items (all_known (map digit_level word.now))) }
{
    for digit in word {
        let Some(level) = digit_level(*digit) else {
            return Ok(false);
        };
        levels.push(level)?;
    }
    Ok(true)
}

// Adds the step that a word writes behind so many steps. Where the word writes none, some levels may have been added.
fn add_step(
    ports: usize,
    count: usize,
    levels: &mut Vec<bool>,
    word: &[u8],
) -> Result<bool, NoMemory>
    requires { length levels.old.items ≡ count * ports }
    ensures step { IfOk result (λ added.
        (if added then Some (steps_of ports (count + 1) levels.new.items) else None) ≡ option_map
        (λ step. steps_of ports count levels.old.items ++ step ∷ []) (word_levels ports word.now)) }
    ensures long { IfOk result (λ added.
        added ≡ true → length levels.new.items ≡ (count + 1) * ports) }
    ensures few { IfOk result (λ added. added ≡ true → count ≤ length levels.old.items) }
{
    if ports == 0 || word.len() != ports {
        return Ok(false);
    }
    let all = add_digits(levels, word)?;
    Ok(all)
}

// Adds the step that a line says behind so many steps, if it says one: how many steps there are then.
fn add_line(
    ports: usize,
    count: usize,
    levels: &mut Vec<bool>,
    line: &Line<'_>,
) -> Result<usize, LevelFault>
    requires { length levels.old.items ≡ count * ports }
    ensures steps { IfOk result (λ steps.
        then_steps (steps_of ports count levels.old.items) (line_steps ports (line_view line.now))
        ≡ Ok (steps_of ports steps levels.new.items)) }
    ensures long { IfOk result (λ steps. length levels.new.items ≡ steps * ports) }
    ensures refused { IfErr result (λ fault.
        IsRefusal fault (line_steps ports (line_view line.now))) }
{
    let mut words = plain_words_of(line.text);
    let Some(word) = words.next() else {
        return Ok(count);
    };
    let refusal = LevelFault::BadLine { line: line.number };
    if words.next().is_some() {
        return Err(refusal);
    }
    if !add_step(ports, count, levels, word)? {
        return Err(refusal);
    }
    Ok(count + 1)
}

/// The levels of a text, for so many ports: those that the text says, or the first line of it that is refused. It takes memory
/// for the levels alone, one byte for each.
pub fn read_levels(alloc: Global, text: &[u8], ports: usize) -> Result<Levels, LevelFault>
    ensures gives { Gives result (levels_of ports text.now) }
    ensures width { IfOk result (λ levels. All (HasWidth ports) levels) }
{
    let mut levels = Vec::new(alloc);
    let mut count = 0;
    for line in lines_of(text) {
        count = add_line(ports, count, &mut levels, &line)?;
    }
    Ok(Levels::of(levels, ports, count))
}
