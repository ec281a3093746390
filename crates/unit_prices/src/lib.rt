// The prices that the columns take theirs from: of a MW and of a line by the year, and of an hour.
// An index is asked below its count: the reason stands beside `Inside` (tables/specs/Layout.antt).
#![tactic(auto)]

ghost use Rattle.std.specs.Prelude.{◌≡◌, ◌+◌, ◌<◌, ltb};
ghost use Rattle.capped.specs.Cap.{cap};
ghost use Rattle.sums.specs.Sum.{on};
ghost use Rattle.model.specs.Data.{fixed_om, annuity, candidate, line_annuity};
ghost use Rattle.unit_prices.specs.Prices.{Hourly, firsts_of, hour_price};
ghost use Rattle.tables.specs.Lists.{data_of};

use capped::Sum;
use tables::lists::{Entries, Tables};
use tables::names::{
    ANNUITY, EMISSION, FIXED_OM, GEN, GEN_COST, LINE_ANNUITY, RES_COST, RESERVE, SRES_VOLL,
    SURPLUS, SURPLUS_PENALTY, TAX, UNMET, VOLL,
};

// FixedOM, and for a candidate the annuity: mills per MW and year.
pub fn yearly_price(tables: &Tables, y: usize, g: usize) -> u64
    requires { (y < tables.now.counts.years) × (g < tables.now.counts.plants) }
    ensures { result ≡ fixed_om (data_of tables.now) y g + on (candidate (data_of tables.now) g) (annuity (data_of tables.now) y g) }
{
    let fixed = tables.by_year_plant(FIXED_OM, y, g);
    if tables.is_existing(g) {
        return fixed;
    }
    fixed + tables.by_year_plant(ANNUITY, y, g)
}

// The annuity that a line from zone z to zone w pays: that of the pair, once, where z is the lower zone; mills per line and year.
pub fn line_price(tables: &Tables, z: usize, w: usize) -> u64
    requires { (z < tables.now.counts.zones) × (w < tables.now.counts.zones) }
    ensures { result ≡ on (ltb z w) (line_annuity (data_of tables.now) z w) }
{
    if z < w {
        tables.by_pair(LINE_ANNUITY, z, w)
    } else {
        0
    }
}

// The price of an hour without the factor W: of gen by plant and year, of reserve by plant, of the others one figure.
#[tactic(auto, unfolding(crate::specs::Prices::hour_price))]
pub fn hour_price(tables: &Tables, t: usize, y: usize, i: usize) -> Sum
    requires { Hourly t × ((y < tables.now.counts.years) × (i < firsts_of tables.now.counts t)) }
    ensures { result ≡ cap (hour_price (data_of tables.now) t y i) }
{
    match t {
        GEN => {
            let untaxed = capped::of(tables.by_year_plant(GEN_COST, y, i));
            let tax = tables.by_year(TAX, y);
            let emission = tables.by_plant(EMISSION, i);
            capped::add_product(untaxed, tax, emission)
        }
        RESERVE => capped::of(tables.by_plant(RES_COST, i)),
        UNMET => capped::of(tables.single(VOLL)),
        SURPLUS => capped::of(tables.single(SURPLUS_PENALTY)),
        // spinshort
        _ => capped::of(tables.single(SRES_VOLL)),
    }
}
