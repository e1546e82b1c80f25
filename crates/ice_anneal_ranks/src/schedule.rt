//! How many tries there are, and how hot they are.

/// Up to how many cells a design is small.
const SMALL: u64 = 60;

/// From how many cells on a design is large. Between the two, numbers of tries grow in proportion.
const LARGE: u64 = 90;

/// How many steps there would be from the greatest heat on. The heat falls with each.
const STEPS: u64 = 64;

/// How many of these, the last ones, a small design has: it needs no great heat to get in order.
const SMALL_STEPS: u64 = 44;

/// How many a design has at most that springs have put in order.
const MOST_STEPS: u64 = 52;

/// For how many cells a design has a step less: the more cells there are, the better springs put them in order, and the longer a step takes.
const CELLS_PER_STEP: u64 = 50;

/// How many steps such a design has at least.
const LEAST_STEPS: u64 = 32;

/// How many steps are left when long ways begin to pull.
const PULLED_STEPS: u64 = 25;

/// How often the places amid nets are noted at each step.
pub const TURNS: u64 = 4;

/// How many tries there are for each cell that may move at each step.
const CELL_TRIES: u64 = 48;

/// How many more tries with cells a small design has at each step.
const LEAST_CELL_TRIES: u64 = 400;

/// How many more a large one has.
const MOST_CELL_TRIES: u64 = 3000;

/// How many tries there are for each unit at each step.
const UNIT_TRIES: u64 = 32;

/// How many more tries with units a small design has at each step. With a third less the longest way of a counter of 28 cells gets 3 % longer.
const LEAST_UNIT_TRIES: u64 = 600;

/// How many more a large one has.
const MOST_UNIT_TRIES: u64 = 2000;

/// Of how many tries with units one is made behind a turn that kept none.
const STILL_SHARE: u64 = 8;

/// How many tries there are for each cell that may move when all is cold.
const LAST_TRIES: u64 = 4;

/// By how many tiles a try with cells may lengthen the wires at the first of all steps, in parts of 256.
const CELL_HEAT: u64 = 4 * 256;

/// By how many tiles a try with a unit may lengthen the wires then, in parts of 256, for each column and each row of sites.
const UNIT_HEAT: u64 = 2 * 256;

/// How many steps and tries there are for a design.
#[derive(Clone, Copy)]
pub struct Schedule {
    /// How many cells it has.
    pub cells: u64,
    /// How many of these may move.
    pub movers: u64,
    /// How many units it has.
    pub units: u64,
}

impl Schedule {
    // A number from that of a small design to that of a large one.
    fn between(&self, least: u64, most: u64) -> u64 {
        let share = self.cells.min(LARGE).saturating_sub(SMALL);
        let more = most.saturating_sub(least).saturating_mul(share);
        least.saturating_add(more / (LARGE - SMALL))
    }

    /// Whether springs put the design in order before the first step: unless it is small.
    pub fn has_springs(&self) -> bool {
        self.cells > SMALL
    }

    /// How many steps there are.
    pub fn steps(&self) -> u64 {
        if self.has_springs() {
            MOST_STEPS
                .saturating_sub(self.cells / CELLS_PER_STEP)
                .max(LEAST_STEPS)
        } else {
            SMALL_STEPS
        }
    }

    /// How many tries with cells there are at each turn.
    pub fn cell_tries(&self) -> u64 {
        let own = self.movers.saturating_mul(CELL_TRIES);
        own.saturating_add(self.between(LEAST_CELL_TRIES, MOST_CELL_TRIES)) / TURNS
    }

    /// How many tries with units there are at a turn, where those of the last turn were all refused, or not.
    pub fn unit_tries(&self, is_still: bool) -> u64 {
        let own = self.units.saturating_mul(UNIT_TRIES);
        let more = self.between(LEAST_UNIT_TRIES, MOST_UNIT_TRIES);
        let tries = own.saturating_add(more) / TURNS;
        if is_still && self.has_springs() {
            tries / STILL_SHARE
        } else {
            tries
        }
    }

    /// How many tries with cells there are when all is cold.
    pub fn last_tries(&self) -> u64 {
        self.movers.saturating_mul(LAST_TRIES)
    }
}

/// A step, by how many are left, itself among them.
#[derive(Clone, Copy)]
pub struct Step {
    /// How many, up to 64.
    pub left: u64,
}

impl Step {
    // A heat, by that of the first of all steps.
    fn heat(&self, first: u64) -> u64 {
        first.saturating_mul(self.left.saturating_mul(self.left)) / (STEPS * STEPS)
    }

    /// By how much a try with cells may lengthen the wires, in parts of 256 of a tile.
    pub fn cell_heat(&self) -> u64 {
        self.heat(CELL_HEAT)
    }

    /// By how much a try with a unit may lengthen them, in the same parts, where there are so many columns and rows of sites together.
    pub fn unit_heat(&self, extent: u64) -> u64 {
        self.heat(extent.saturating_mul(UNIT_HEAT))
    }

    /// How many columns and rows away a try looks that looks around.
    pub fn reach(&self, extent: u64) -> u8 {
        (extent.saturating_mul(self.left) / (STEPS * 4)).clamp(1, 63) as u8
    }

    /// Whether long ways pull.
    pub fn pulls(&self) -> bool {
        self.left <= PULLED_STEPS
    }
}
