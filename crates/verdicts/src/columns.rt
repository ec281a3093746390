// The verdict on a column: refusals 11 and 12.
ghost use Rattle.std.specs.Prelude.{◌≡◌};
ghost use Rattle.verdicts.specs.Columns.{verdict_of};

use capped::Sum;
use column_terms::Pair;
use model::Refusal;
use std::cmp::Ordering;

// 11 where a sum is over the limit, else 12 where the terms above zero exceed the price and the terms below. By `compare`, as `verdict` of rows.
#[tactic(auto, unfolding(crate::specs::Columns::verdict_of, compared::specs::Compared::over))]
pub fn verdict(sums: Pair, price: Sum, column: usize) -> Result<(), Refusal>
    ensures { result ≡ verdict_of sums price column }
{
    if sums.up.is_none() || sums.down.is_none() {
        return Err(Refusal::ColumnOffScale(column));
    }
    match compared::compare(sums.up, capped::join(price, sums.down)) {
        Some(Ordering::Less | Ordering::Equal) => Ok(()),
        // None is never reached: `up` is not over here, and only of two sums that are both over is the order unknown (compared's law `order-unknown`).
        Some(Ordering::Greater) | None => Err(Refusal::Underpriced(column)),
    }
}
