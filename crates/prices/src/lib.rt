// The cost of a plan: Σ price·entry over all columns, year by year.
// An index is asked below its count: the reason stands beside `Inside` (tables/specs/Layout.antt).
#![tactic(auto)]

ghost use Rattle.std.specs.Prelude.{◌≡◌, ◌<◌};
ghost use Rattle.capped.specs.Cap.{cap};
ghost use Rattle.model.specs.Prices.{cost};
ghost use Rattle.hour_costs.specs.Costs.{Yearly, term, units_cost, yearly_cost, year_cost};
ghost use Rattle.sums.specs.Index.{index};
ghost use Rattle.unit_prices.specs.Prices.{firsts_of, seconds_of};
ghost use Rattle.tables.specs.Lists.{data_of, entry_of};

use capped::Sum;
use column_prices::unit_price;
use hour_costs::hours_cost;
use tables::lists::{Case, Entries};
use tables::names::{CAP, FIRMSHORT, TOTAL_LINES};
use tables::starts::{column_box, column_set};
use terms::totals::total;

// price·entry of plant or zone i and second zone j in year y, of a table priced by the year. That it is one is asked here and below (`Yearly`): an enum of the
// three would need an arm for each, back to its number.
#[tactic(auto, using(crate::proofs::Laws::year_laws))]
fn unit_cost(case: &Case, t: usize, y: usize, i: usize, j: usize) -> Sum
    requires { Yearly t × ((y < case.now.plan.counts.years) × ((i < firsts_of case.now.plan.counts t) × (j < seconds_of case.now.plan.counts t))) }
    ensures { result ≡ cap (term (data_of case.now.tables) case.now.plan.counts (entry_of case.now.plan) (index t y i j 0)) }
{
    let unit = unit_price(&case.tables, t, y, i, j);
    let units = case.plan.entry_in(t, column_set(t), y, i, j, 0);
    capped::scale(unit, units)
}

// The same over the second zones where the table has them.
#[tactic(auto, using(crate::proofs::Laws::year_laws))]
fn units_cost(case: &Case, t: usize, y: usize, i: usize) -> Sum
    requires { Yearly t × ((y < case.now.plan.counts.years) × (i < firsts_of case.now.plan.counts t)) }
    ensures { result ≡ cap (units_cost (data_of case.now.tables) case.now.plan.counts (entry_of case.now.plan) t y i) }
{
    let b = column_box(case.plan.counts, t);
    total(b.seconds, |j| unit_cost(case, t, y, i, j))
}

// Σ price·entry of a table priced by the year, in year y. `hourly_cost` (hour_costs) is these two lines over `slices_cost`: one function for both would be
// handed the closure, and so be `total`.
#[tactic(auto, using(crate::proofs::Laws::year_laws))]
fn yearly_cost(case: &Case, t: usize, y: usize) -> Sum
    requires { Yearly t × (y < case.now.plan.counts.years) }
    ensures { result ≡ cap (yearly_cost (data_of case.now.tables) case.now.plan.counts (entry_of case.now.plan) t y) }
{
    let b = column_box(case.plan.counts, t);
    total(b.firsts, |i| units_cost(case, t, y, i))
}

// The kinds of column that are priced by the year. They are summed by `total`, whose promise is the sum; a `fold` over the array would be proved once more.
const YEARLY: [usize; 3] = [CAP, FIRMSHORT, TOTAL_LINES];

// Σ price·entry in year y; build, retire, trans, charge, level and built have no price.
#[tactic(auto, using(crate::proofs::Laws::year_laws))]
fn year_cost(case: &Case, y: usize) -> Sum
    requires { y < case.now.plan.counts.years }
    ensures { result ≡ cap (year_cost (data_of case.now.tables) case.now.plan.counts (entry_of case.now.plan) y) }
{
    let fixed = total(YEARLY.len(), |k| yearly_cost(case, YEARLY[k], y));
    capped::join(fixed, hours_cost(case, y))
}

// Σ price·entry over all columns.
pub fn cost_of(case: &Case) -> Sum
    ensures { result ≡ cap (cost (data_of case.now.tables) (entry_of case.now.plan)) }
{
    total(case.plan.counts.years, |y| year_cost(case, y))
}
