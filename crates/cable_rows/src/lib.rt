// Families 26 to 28: the rows of the lines that are built between zones. The source prints them without numbers, after (15).
// An index is asked below its count: the reason stands beside `Inside` (tables/specs/Layout.antt).
#![tactic(auto, unfolding(row_sums::specs::Sides::sides_of, row_sums::specs::Sides::sides_with, constants::specs::Constants::constant_of), using(row_sums::proofs::Laws::exact_sums))]

ghost use Rattle.std.specs.Prelude.{◌≡◌, ℕ, ◌<◌};
ghost use Rattle.model.specs.Data.{Data};
ghost use Rattle.model.specs.Families.{row};
ghost use Rattle.row_sums.specs.Sides.{sides_of};
ghost use Rattle.tables.specs.Lists.{data_of, entry_of};

use row_sums::{Sides, at_most, empty};
use tables::lists::{Case, Entries, Plan};
use tables::names::{BUILT_LINES, TOTAL_LINES};
use tables::sets::BY_LINK;
use terms::years::{earlier, over_years};
use zone_constants::new_lines_constant;

// `case` and `scale` stand together as in `fleet_rows`: a row without a constant takes no scale.

// 26: total = earlier total (0 in the first year) + built, within one zone too
pub fn line_balance(plan: &Plan, y: usize, z: usize, w: usize) -> Sides
    requires { (y < plan.now.counts.years) × ((z < plan.now.counts.zones) × (w < plan.now.counts.zones)) }
    ensures { (D : Data) (N : ℕ) → result ≡ sides_of D N (entry_of plan.now) (row 26 y z w 0) }
{
    let total = plan.by_link(TOTAL_LINES, y, z, w);
    let before = earlier(plan, TOTAL_LINES, BY_LINK, y, z, w);
    Sides {
        above: capped::product(1, total),
        below: capped::add_product(before, 1, plan.by_link(BUILT_LINES, y, z, w)),
    }
}

// 27: Σ built over the years ≤ line limit, within one zone too
pub fn new_lines(case: &Case, scale: u64, z: usize, w: usize) -> Sides
    requires { (z < case.now.plan.counts.zones) × (w < case.now.plan.counts.zones) }
    ensures { result ≡ sides_of (data_of case.now.tables) scale (entry_of case.now.plan) (row 27 0 z w 0) }
{
    at_most(
        over_years(&case.plan, BUILT_LINES, BY_LINK, z, w),
        scale,
        new_lines_constant(&case.tables, z, w),
    )
}

// 28, z below z2: total[z,z2] = total[z2,z]
pub fn lines_both_ways(plan: &Plan, y: usize, z: usize, w: usize) -> Sides
    requires { (y < plan.now.counts.years) × ((z < plan.now.counts.zones) × (w < plan.now.counts.zones)) }
    ensures { (D : Data) (N : ℕ) → result ≡ sides_of D N (entry_of plan.now) (row 28 y z w 0) }
{
    if z >= w {
        return empty();
    }
    Sides {
        above: capped::product(1, plan.by_link(TOTAL_LINES, y, z, w)),
        below: capped::product(1, plan.by_link(TOTAL_LINES, y, w, z)),
    }
}
