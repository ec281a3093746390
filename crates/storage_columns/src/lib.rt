// The columns charge and level. Of a plant that is no battery each stands only in the rows that hold it at 0.
// An index is asked below its count: the reason stands beside `Inside` (tables/specs/Layout.antt).
#![tactic(auto)]

ghost use Rattle.std.specs.Prelude.{◌≡◌, ◌<◌};
ghost use Rattle.model.specs.Counts.{slices_of};
ghost use Rattle.model.specs.Standing.{charge_in⁺, charge_in⁻, level_in⁺, level_in⁻};
ghost use Rattle.column_terms.specs.Pairs.{pair_of};
ghost use Rattle.tables.specs.Lists.{data_of};

use column_terms::Pair;
use column_terms::ramps::in_ramps;
use column_terms::readers::{after_first_hour, zone_of};
use duals::Pricing;
use tables::families::{
    BALANCE, BATTERY_LEVEL, CHARGE_FALL, CHARGE_LIMIT, CHARGE_RISE, LEVEL_LIMIT,
};
use tables::names::EFFICIENCY;

// Families 1 and 22; of a battery also 21, 23 and 24.
pub fn charge_column(pricing: &Pricing, y: usize, g: usize, s: usize) -> Pair
    requires { (y < pricing.now.multipliers.counts.years) × ((g < pricing.now.multipliers.counts.plants) × (s < slices_of pricing.now.multipliers.counts)) }
    ensures { result ≡ pair_of pricing.now.multipliers.counts pricing.now.multipliers.list.now (charge_in⁺ (data_of pricing.now.tested.tables.now) y g s) (charge_in⁻ (data_of pricing.now.tested.tables.now) y g s) }
{
    let multipliers = &pricing.multipliers;
    let z = zone_of(&pricing.tested, g);
    let common = Pair::none()
        .take_row(1, multipliers, CHARGE_LIMIT, y, g, 0, s)
        .take_row(1000, multipliers, BALANCE, y, z, 0, s);
    if !pricing.tested.tables.is_battery(g) {
        return common;
    }
    let efficiency = pricing.tested.tables.by_plant(EFFICIENCY, g);
    let ramps = in_ramps(multipliers, CHARGE_FALL, CHARGE_RISE, y, g, s);
    common
        .take_row(efficiency, multipliers, BATTERY_LEVEL, y, g, 0, s)
        .join(ramps)
}

// Family 25; of a battery also 21: the slice's own row, and the next slice's of the day, which starts from this level.
pub fn level_column(pricing: &Pricing, y: usize, g: usize, s: usize) -> Pair
    requires { (y < pricing.now.multipliers.counts.years) × ((g < pricing.now.multipliers.counts.plants) × (s < slices_of pricing.now.multipliers.counts)) }
    ensures { result ≡ pair_of pricing.now.multipliers.counts pricing.now.multipliers.list.now (level_in⁺ (data_of pricing.now.tested.tables.now) y g s) (level_in⁻ (data_of pricing.now.tested.tables.now) y g s) }
{
    let multipliers = &pricing.multipliers;
    let limit = Pair::none().take_row(1, multipliers, LEVEL_LIMIT, y, g, 0, s);
    if !pricing.tested.tables.is_battery(g) {
        return limit;
    }
    let next = s + 1;
    let carried = after_first_hour(multipliers.counts, next);
    limit
        .add_row(1, multipliers, BATTERY_LEVEL, y, g, 0, s)
        .take_row_if(carried, 1, multipliers, BATTERY_LEVEL, y, g, 0, next)
}
