//! The levels of a text, step by step.
ghost use Rattle.std.specs.Prelude.{◌≡◌, ◌*◌, length};
ghost use Rattle.ice_sim_levels.specs.Steps.{steps_of};

use std::marker::Model;

/// For each step the levels of all ports. Contracts see it as the list of the steps, each the list of its levels.
#[derive(Drop)]
pub struct Levels {
    // The levels of all steps, one step behind the other.
    levels: Vec<bool>,
    width: usize,
    count: usize,
}

impl Model for Levels {
    ghost use Rattle.std.specs.Prelude.{◌≡◌, ◌*◌, List, Bool, length};
    ghost use Rattle.ice_sim_levels.specs.Steps.{steps_of};

    ghost Value = { List (List Bool) };

    ghost view = { λ l. steps_of l.width l.count l.levels.items };

    ghost invariant = { λ l. length l.levels.items ≡ l.count * l.width };
}

impl Levels {
    // So many steps of so many levels each. Takes no memory.
    pub(crate) fn of(levels: Vec<bool>, width: usize, count: usize) -> Levels
        requires { length levels.items ≡ count * width }
        ensures { result ≡ steps_of width count levels.items }
    {
        Levels {
            levels,
            width,
            count,
        }
    }

    /// How many steps there are.
    #[tactic(auto, using(crate::proofs::StepLists::steps_counted))]
    pub fn count(&self) -> usize
        ensures { result ≡ length self.now }
    {
        self.count
    }

    /// The levels of the steps, in order. It takes no memory.
    pub fn steps(&self) -> LevelSteps<'_>
        ensures { result ≡ self.now }
    {
        LevelSteps {
            rest: self.levels.as_slice(),
            width: self.width,
            left: self.count,
        }
    }
}

/// The steps that are left. Contracts see it as the list of them.
#[derive(Drop)]
pub struct LevelSteps<'a> {
    rest: &'a [bool],
    width: usize,
    left: usize,
}

impl<'a> Model for LevelSteps<'a> {
    ghost use Rattle.std.specs.Prelude.{◌≡◌, ◌*◌, List, Bool, length};
    ghost use Rattle.ice_sim_levels.specs.Steps.{steps_of};

    ghost Value = { List (List Bool) };

    ghost view = { λ s. steps_of s.width s.left s.rest.now };

    ghost invariant = { λ s. length s.rest.now ≡ s.left * s.width };
}

impl<'a> Iterator for LevelSteps<'a> {
    ghost use Rattle.std.specs.Iterator.{YieldsFirstBy, item_count};

    type Item = &'a [bool];

    ghost next_gives = { YieldsFirstBy (λ step. step.now) (λ left. left) };

    ghost remaining = { item_count (λ left. left) };

    fn next(&mut self) -> Option<&'a [bool]> {
        if self.left == 0 {
            return None;
        }
        let (step, rest) = self.rest.split_at(self.width);
        self.rest = rest;
        self.left -= 1;
        Some(step)
    }
}
