// A kind of column over the years: `t` is the kind, `k` the code of its index set, `i` and `j` the first and the second index.
ghost use Rattle.std.specs.Prelude.{◌≡◌, ◌*◌, ◌-◌, ltb};
ghost use Rattle.capped.specs.Cap.{cap};
ghost use Rattle.sums.specs.Sum.{sum, on};
ghost use Rattle.sums.specs.Index.{index};
ghost use Rattle.model.specs.Columns.{column_sets};
ghost use Rattle.tables.specs.Layout.{EntryAt};
ghost use Rattle.tables.specs.Lists.{entry_of};

use crate::totals::total;
use capped::Sum;
use tables::lists::{Entries, Plan};

// The entry of the year before, 0 before the first.
pub fn earlier(plan: &Plan, t: usize, k: usize, y: usize, i: usize, j: usize) -> Sum
    requires { EntryAt column_sets plan.now.counts t k y i j 0 }
    ensures { result ≡ cap (on (ltb 0 y) (1 * entry_of plan.now (index t (y - 1) i j 0))) }
{
    if 0 < y {
        return capped::product(1, plan.entry_in(t, k, y - 1, i, j, 0));
    }
    capped::zero()
}

// Σ over all years. Where the last year's entry can be read, every year's can.
pub fn over_years(plan: &Plan, t: usize, k: usize, i: usize, j: usize) -> Sum
    requires { EntryAt column_sets plan.now.counts t k (plan.now.counts.years - 1) i j 0 }
    ensures { result ≡ cap (sum plan.now.counts.years (λ y. 1 * entry_of plan.now (index t y i j 0))) }
{
    total(
        plan.counts.years,
        |y| capped::product(1, plan.entry_in(t, k, y, i, j, 0)),
    )
}
