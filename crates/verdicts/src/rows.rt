// The verdict on a row: refusals 6 and 7.
ghost use Rattle.std.specs.Prelude.{◌≡◌};
ghost use Rattle.verdicts.specs.Rows.{verdict_of};

use model::Refusal;
use row_sums::Sides;
use std::cmp::Ordering;

// 6 where a sum is over the limit, else 7 where the row does not hold. `equal` is the family's flag of document 01's table of families: it says which order
// holds, and is no step to choose. By `compare`: the crates above `capped` compare sums by `compared` alone (head of `capped`), and the
// definition by `order`.
#[tactic(auto, unfolding(crate::specs::Rows::verdict_of, compared::specs::Compared::over))]
pub fn verdict(sides: Sides, equal: bool, row: usize) -> Result<(), Refusal>
    ensures { result ≡ verdict_of sides equal row }
{
    if sides.above.is_none() || sides.below.is_none() {
        return Err(Refusal::RowOffScale(row));
    }
    match compared::compare(sides.below, sides.above) {
        Some(Ordering::Less) if !equal => Ok(()),
        Some(Ordering::Equal) => Ok(()),
        // None is never reached: neither sum is over here, and of two such sums the order is known (compared's law `order-unknown`).
        _ => Err(Refusal::Broken(row)),
    }
}
