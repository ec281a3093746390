// A row's two sums, from its terms and its constant.
#![tactic(auto)]

ghost use Rattle.std.specs.Prelude.{◌≡◌};
ghost use Rattle.capped.specs.Cap.{cap};
ghost use Rattle.row_sums.specs.Sides.{above_nothing, sides_with, sides};

use capped::Sum;
use constants::{Constant, netted};

// A row's positive and negative terms, summed apart. No `Pair` (column_terms), though that has two sums too: with one type a column's sums could be handed
// to the verdict on rows.
#[derive(Clone, Copy)]
pub struct Sides {
    pub above: Sum,
    pub below: Sum,
}

// What a ramp bounds: how far an hour's output or charge lies below that of the hour before, or above it.
#[derive(Clone, Copy, Debug, PartialEq, Eq)]
pub enum Change {
    Fall,
    Rise,
}

// The constant's two parts brought together into one, then added at the scale on the side where it is not negative.
pub fn with_constant(above: Sum, below: Sum, scale: u64, k: Constant) -> Sides
    ensures { result ≡ sides_with above below scale k }
{
    let n = netted(k);
    Sides {
        above: capped::add_product(above, scale, n.adds),
        below: capped::add_product(below, scale, n.takes),
    }
}

// A row that holds a sum of columns to a limit: its terms are all negative, its constant is the limit.
pub fn at_most(below: Sum, scale: u64, k: Constant) -> Sides
    ensures { result ≡ sides_with (cap 0) below scale k }
{
    with_constant(capped::zero(), below, scale, k)
}

// A row without a constant that holds a sum of columns to 0: its terms are all negative.
pub fn at_most_zero(below: Sum) -> Sides
    ensures { result ≡ above_nothing below }
{
    Sides {
        above: capped::zero(),
        below,
    }
}

// A row whose condition fails reads 0 ≥ 0.
pub fn empty() -> Sides
    ensures { result ≡ sides 0 0 }
{
    Sides {
        above: capped::zero(),
        below: capped::zero(),
    }
}
