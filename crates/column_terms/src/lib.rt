// What the columns are made of: the two sums of a column, its terms and ramps, and what the columns read in common.
#![tactic(auto)]

pub mod pairs;
pub mod ramps;
pub mod readers;

use capped::Sum;

// Terms m·a of a column, or m·k of the rows: those above zero and those below, summed apart.
#[derive(Clone, Copy)]
pub struct Pair {
    pub up: Sum,
    pub down: Sum,
}
