// The price of a column in two factors: the price of a unit, or of a unit's hour, which does not change along the slices; and the hours.
// An index is asked below its count: the reason stands beside `Inside` (tables/specs/Layout.antt).
#![tactic(auto)]

ghost use Rattle.std.specs.Prelude.{◌≡◌, ◌<◌};
ghost use Rattle.capped.specs.Cap.{cap};
ghost use Rattle.sums.specs.Index.{box_of};
ghost use Rattle.model.specs.Counts.{sets};
ghost use Rattle.model.specs.Columns.{column_kind_count};
ghost use Rattle.unit_prices.specs.Prices.{set_of, firsts_of, seconds_of};
ghost use Rattle.column_prices.specs.Factors.{unit_price, hours_of};
ghost use Rattle.tables.specs.Lists.{data_of};

use capped::Sum;
use tables::lists::Tables;
use tables::names::{
    BUILD, BUILT_LINES, CAP, CHARGE, DURATION, FIRMSHORT, LEVEL, RES_VOLL, RETIRE, TOTAL_LINES,
    TRANS,
};
use terms::plants::year_weight;
use unit_prices::{hour_price, line_price, yearly_price};

// Of table k, year y, plant or zone i, second zone j. Build, retire, trans, charge, level and built have no price.
#[tactic(auto, unfolding(crate::specs::Factors::unit_price), using(crate::proofs::Laws::column_laws))]
pub fn unit_price(tables: &Tables, k: usize, y: usize, i: usize, j: usize) -> Sum
    requires { (k < column_kind_count) × ((y < tables.now.counts.years) × ((i < firsts_of tables.now.counts k) × (j < seconds_of tables.now.counts k))) }
    ensures { result ≡ cap (unit_price (data_of tables.now) k y i j) }
{
    let share = year_weight(tables, y);
    match k {
        CAP => capped::product(share, yearly_price(tables, y, i)),
        BUILD | RETIRE | TRANS | CHARGE | LEVEL | BUILT_LINES => capped::zero(),
        FIRMSHORT => capped::product(share, tables.single(RES_VOLL)),
        TOTAL_LINES => capped::product(share, line_price(tables, i, j)),
        // the tables priced by the hour
        _ => capped::scale(hour_price(tables, k, y, i), share),
    }
}

// The hours of slice s for a table priced by the hour, else 1.
#[tactic(auto, unfolding(crate::specs::Factors::hours_of), using(crate::proofs::Laws::column_laws))]
pub fn hours_of(tables: &Tables, k: usize, s: usize) -> u64
    requires { (k < column_kind_count) × (s < (box_of (sets tables.now.counts) (set_of k)).slices) }
    ensures { result ≡ hours_of (data_of tables.now) k s }
{
    match k {
        CAP | BUILD | RETIRE | TRANS | FIRMSHORT | CHARGE | LEVEL | BUILT_LINES | TOTAL_LINES => 1,
        _ => tables.by_slice(DURATION, s),
    }
}
