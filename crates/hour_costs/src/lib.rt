// The cost in one year of the tables that are priced by the hour.
// An index is asked below its count: the reason stands beside `Inside` (tables/specs/Layout.antt).
#![tactic(auto)]

ghost use Rattle.std.specs.Prelude.{◌≡◌, ℕ, ◌+◌, ◌*◌, ◌≤◌, ◌<◌, length, get_or, take, drop};
ghost use Rattle.capped.specs.Cap.{cap};
ghost use Rattle.sums.specs.Sum.{sum};
ghost use Rattle.sums.specs.Index.{index};
ghost use Rattle.model.specs.Counts.{slices_of};
ghost use Rattle.model.specs.Data.{duration};
ghost use Rattle.unit_prices.specs.Prices.{Hourly};
ghost use Rattle.hour_costs.specs.Costs.{Hours, slices_cost, hourly_cost, hours_cost};
ghost use Rattle.tables.specs.Lists.{data_of, entry_of};

use capped::Sum;
use column_prices::unit_price;
use tables::lists::{Case, Plan, Tables, number_at};
use tables::names::{DURATION, GEN, RESERVE, SPINSHORT, SURPLUS, UNMET};
use tables::sets::{inside_of, slices_of};
use tables::starts::{column_box, column_set};
use terms::totals::total;

// The slices of plant or zone i in year y: a part of the plan. `peaks` takes a part of the data likewise, and says there why no method serves both.
#[tactic(auto, using(column_prices::proofs::Laws::column_laws))]
fn slices_at<'a>(plan: &Plan<'a>, t: usize, y: usize, i: usize) -> &'a [u32]
    requires { Hours plan.now.counts t y i }
    ensures { (length result.now ≡ slices_of plan.now.counts) × ((s : ℕ) → s < slices_of plan.now.counts → get_or result.now s 0 ≡ entry_of plan.now (index t y i 0 s)) }
{
    let n = slices_of(plan.counts);
    let first = inside_of(plan.counts, column_set(t), y, i, 0, 0);
    let start = plan.starts[t] + first;
    let end = start + n;
    &plan.list[start..end]
}

// Σ Dur·entry over the slices of a part. The part is a bare slice, so its length is asked: a struct that held it would be made for this one call.
fn weighted_hours(tables: &Tables, part: &[u32]) -> Sum
    requires { length part.now ≡ slices_of tables.now.counts }
    ensures { result ≡ cap (sum (slices_of tables.now.counts) (λ s. duration (data_of tables.now) s * get_or part.now s 0)) }
{
    total(
        part.len(),
        |s| capped::product(tables.by_slice(DURATION, s), number_at(part, s)),
    )
}

// Σ price·entry over the slices of plant or zone i in year y: the hours are summed first and priced once.
fn slices_cost(case: &Case, t: usize, y: usize, i: usize) -> Sum
    requires { Hours case.now.plan.counts t y i }
    ensures { result ≡ cap (slices_cost (data_of case.now.tables) case.now.plan.counts (entry_of case.now.plan) t y i) }
{
    let price = unit_price(&case.tables, t, y, i, 0);
    let hours = weighted_hours(&case.tables, slices_at(&case.plan, t, y, i));
    capped::multiply(price, hours)
}

// Σ price·entry of a table priced by the hour, in year y.
fn hourly_cost(case: &Case, t: usize, y: usize) -> Sum
    requires { Hourly t × (y < case.now.plan.counts.years) }
    ensures { result ≡ cap (hourly_cost (data_of case.now.tables) case.now.plan.counts (entry_of case.now.plan) t y) }
{
    let b = column_box(case.plan.counts, t);
    total(b.firsts, |i| slices_cost(case, t, y, i))
}

// The kinds of column that are priced by the hour. They are summed by `total`, as those of `prices` are.
const HOURLY: [usize; 5] = [GEN, RESERVE, UNMET, SURPLUS, SPINSHORT];

// Σ price·entry of all tables priced by the hour, in year y.
#[tactic(auto, using(crate::proofs::Laws::hourly_laws))]
pub fn hours_cost(case: &Case, y: usize) -> Sum
    requires { y < case.now.plan.counts.years }
    ensures { result ≡ cap (hours_cost (data_of case.now.tables) case.now.plan.counts (entry_of case.now.plan) y) }
{
    total(HOURLY.len(), |k| hourly_cost(case, HOURLY[k], y))
}
