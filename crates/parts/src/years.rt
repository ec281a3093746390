// The year's parts of the tables by year, plant and slice (gen, reserve, charge and level).
ghost use Rattle.std.specs.Prelude.{◌≡◌, ◌+◌, ◌*◌, ◌≤◌, ◌<◌, length, get_or, take, drop};
ghost use Rattle.model.specs.Counts.{slices_of, [ygs]};
ghost use Rattle.model.specs.Columns.{column_sets, column_kind_count};
ghost use Rattle.model.specs.Data.{most32};
ghost use Rattle.tables.specs.Layout.{Counted};
ghost use Rattle.parts.specs.Years.{YearPart};

use model::Counts;
use tables::lists::{Plan, number_at};
use tables::sets::slices_of;

// The part of year y of a kind of column by year, plant and slice.
pub fn plan_part<'a>(plan: &Plan<'a>, t: usize, y: usize) -> &'a [u32]
    requires { (t < column_kind_count) × ((get_or column_sets t 0 ≡ [ygs]) × (y < plan.now.counts.years)) }
    ensures part { YearPart plan.now.list.now result.now plan.now.counts t y }
    ensures lies { result.now ≡ take (plan.now.counts.plants * slices_of plan.now.counts) (drop (get_or plan.now.starts t 0 + y * (plan.now.counts.plants * slices_of plan.now.counts)) plan.now.list.now) }
{
    let places = plan.counts.plants * slices_of(plan.counts);
    year_part(plan.list, plan.starts[t], places, y)
}

// Of years of so many places each, one after another from a place on, those of year y.
pub fn year_part(plan: &[u32], from: usize, places: usize, y: usize) -> &[u32]
    requires { (from + (y + 1) * places ≤ length plan.now) × ((places ≤ 12288) × (y < 10)) }
    ensures { result.now ≡ take places (drop (from + y * places) plan.now) }
{
    let start = from + y * places;
    let end = start + places;
    &plan[start..end]
}

// An entry of a year's part, by plant and slice. `Counted` is asked: the reason stands beside it (tables/specs/Layout.antt).
// The part's length is asked since the part is a bare slice: document 01 has a year's part as a slice part, handed on to row tests and to posting.
pub fn part_at(part: &[u32], c: Counts, g: usize, s: usize) -> u64
    requires { Counted c × ((length part.now ≡ c.plants * slices_of c) × ((g < c.plants) × (s < slices_of c))) }
    ensures { (result ≡ get_or part.now (g * slices_of c + s) 0) × (result ≤ most32) }
{
    let n = slices_of(c);
    let at = g * n + s;
    number_at(part, at)
}
