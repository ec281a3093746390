// The tests of the plan's scale and length, and of the board's room: refusals 4, 5 and 14.
#![tactic(auto)]

ghost use Rattle.std.specs.Prelude.{◌≡◌, ◌&&◌, ◌-◌, length, ltb, leb};
ghost use Rattle.sums.specs.Index.{count};
ghost use Rattle.model.specs.Columns.{column_boxes};
ghost use Rattle.tables.specs.Layout.{Counted};
ghost use Rattle.plan_tests.specs.Tests.{plan_test};

use model::{COLUMN_KIND_COUNT, Counts, Refusal};
use tables::lists::Plan;
use tables::starts::column_starts;

// The number of columns, the length of a plan. `Counted` is asked: the reason stands beside it (tables/specs/Layout.antt).
#[tactic(auto, using(crate::proofs::Laws::last_start))]
pub fn column_count(counts: Counts) -> usize
    requires { Counted counts }
    ensures { result ≡ count (column_boxes counts) }
{
    column_starts(counts)[COLUMN_KIND_COUNT]
}

// Refusals 4 and 5.
#[tactic(auto, using(crate::proofs::Laws::plan_short, crate::proofs::Laws::plan_fits))]
pub fn test_plan(scale: u32, places: usize, columns: usize) -> Result<(), Refusal>
    ensures { result ≡ plan_test scale places columns }
{
    if !(1..=1000).contains(&scale) {
        return Err(Refusal::Scale);
    }
    if places != columns {
        return Err(Refusal::PlanLength(columns));
    }
    Ok(())
}

// A plan of the right length, with the starts of its tables. `Counted` is asked: the reason stands beside it (tables/specs/Layout.antt).
pub fn lay_out_plan(list: &[u32], counts: Counts) -> Plan<'_>
    requires { Counted counts × (length list.now ≡ count (column_boxes counts)) }
    ensures { (result.list.now ≡ list.now) × (result.counts ≡ counts) }
{
    Plan {
        list,
        counts,
        starts: column_starts(counts),
    }
}

// Refusal 14: the year is one of the plan's, and the places from `start` on are enough. Compared by subtraction, since `start` may be any number.
pub fn board_fits(years: usize, year: usize, places: usize, start: usize, needed: usize) -> bool
    ensures { result ≡ (ltb year years && leb needed (places - start)) }
{
    year < years && needed <= places.saturating_sub(start)
}
