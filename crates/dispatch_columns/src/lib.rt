// The columns gen and reserve.
// An index is asked below its count: the reason stands beside `Inside` (tables/specs/Layout.antt).
#![tactic(auto)]

ghost use Rattle.std.specs.Prelude.{◌≡◌, ◌<◌};
ghost use Rattle.model.specs.Counts.{slices_of};
ghost use Rattle.model.specs.Standing.{gen_in⁺, gen_in⁻, reserve_in⁺, reserve_in⁻};
ghost use Rattle.column_terms.specs.Pairs.{pair_of};
ghost use Rattle.dispatch_columns.specs.Groups.{gen_in_zone⁺, gen_in_zone⁻, gen_in_load⁺, gen_in_load⁻};
ghost use Rattle.tables.specs.Lists.{data_of};

use column_terms::Pair;
use column_terms::ramps::in_ramps;
use column_terms::readers::{fuel_of, hourly, zone_of};
use duals::Pricing;
use parts::slices::{on_min_load_day, season_of};
use tables::families::{
    AVAILABLE, BALANCE, BATTERY_LEVEL, FUEL_USE, LOADING, MINIMUM_LOAD, OFFER, PROFILED, RAMP_DOWN,
    RAMP_UPWARD, SPINNING, SYSTEM_EMISSION, ZONE_EMISSION,
};
use tables::names::{DURATION, EMISSION, ERR, HEAT_RATE};

// The rows of the plant's zone: families 1, 3, 17, 19 and 20.
fn gen_in_zone(pricing: &Pricing, y: usize, g: usize, s: usize) -> Pair
    requires { (y < pricing.now.multipliers.counts.years) × ((g < pricing.now.multipliers.counts.plants) × (s < slices_of pricing.now.multipliers.counts)) }
    ensures { result ≡ pair_of pricing.now.multipliers.counts pricing.now.multipliers.list.now (gen_in_zone⁺ (data_of pricing.now.tested.tables.now) y g s) (gen_in_zone⁻ (data_of pricing.now.tested.tables.now) y g s) }
{
    let z = zone_of(&pricing.tested, g);
    let f = fuel_of(&pricing.tested, g);
    let err = pricing.tested.tables.single(ERR);
    let heat = hourly(pricing.tested.tables, HEAT_RATE, g, s);
    let emitted = hourly(pricing.tested.tables, EMISSION, g, s);
    let vre = pricing.tested.tables.is_vre(g);
    let multipliers = &pricing.multipliers;
    Pair::none()
        .add_row(1000, multipliers, BALANCE, y, z, 0, s)
        .take_row_if(vre, err, multipliers, SPINNING, y, z, 0, s)
        .take_row(heat, multipliers, FUEL_USE, y, z, f, 0)
        .take_row(emitted, multipliers, ZONE_EMISSION, y, z, 0, 0)
        .take_row(emitted, multipliers, SYSTEM_EMISSION, y, 0, 0, 0)
}

// The rows that limit the plant in its slice and season: families 5, 9, 10 and 11.
fn gen_in_load(pricing: &Pricing, y: usize, g: usize, s: usize) -> Pair
    requires { (y < pricing.now.multipliers.counts.years) × ((g < pricing.now.multipliers.counts.plants) × (s < slices_of pricing.now.multipliers.counts)) }
    ensures { result ≡ pair_of pricing.now.multipliers.counts pricing.now.multipliers.list.now (gen_in_load⁺ (data_of pricing.now.tested.tables.now) y g s) (gen_in_load⁻ (data_of pricing.now.tested.tables.now) y g s) }
{
    let multipliers = &pricing.multipliers;
    let q = season_of(multipliers.counts, s);
    let hours = 1000 * pricing.tested.tables.by_slice(DURATION, s);
    let least = on_min_load_day(pricing.tested.tables, s);
    let vre = pricing.tested.tables.is_vre(g);
    Pair::none()
        .add_row_if(least, 1000, multipliers, MINIMUM_LOAD, y, g, 0, s)
        .take_row(1000, multipliers, LOADING, y, g, 0, s)
        .take_row(hours, multipliers, AVAILABLE, y, g, 0, q)
        .take_row_if(vre, 1000, multipliers, PROFILED, y, g, 0, s)
}

// Families 1, 3, 5, 7 to 11, 17, 19 and 20; of a battery also 21.
pub fn gen_column(pricing: &Pricing, y: usize, g: usize, s: usize) -> Pair
    requires { (y < pricing.now.multipliers.counts.years) × ((g < pricing.now.multipliers.counts.plants) × (s < slices_of pricing.now.multipliers.counts)) }
    ensures { result ≡ pair_of pricing.now.multipliers.counts pricing.now.multipliers.list.now (gen_in⁺ (data_of pricing.now.tested.tables.now) y g s) (gen_in⁻ (data_of pricing.now.tested.tables.now) y g s) }
{
    let multipliers = &pricing.multipliers;
    let battery = pricing.tested.tables.is_battery(g);
    let ramps = in_ramps(multipliers, RAMP_DOWN, RAMP_UPWARD, y, g, s);
    gen_in_zone(pricing, y, g, s)
        .join(gen_in_load(pricing, y, g, s))
        .join(ramps)
        .add_row_if(battery, 1000, multipliers, BATTERY_LEVEL, y, g, 0, s)
}

// Families 3, 5 and 6.
pub fn reserve_column(pricing: &Pricing, y: usize, g: usize, s: usize) -> Pair
    requires { (y < pricing.now.multipliers.counts.years) × ((g < pricing.now.multipliers.counts.plants) × (s < slices_of pricing.now.multipliers.counts)) }
    ensures { result ≡ pair_of pricing.now.multipliers.counts pricing.now.multipliers.list.now (reserve_in⁺ (data_of pricing.now.tested.tables.now) y g s) (reserve_in⁻ (data_of pricing.now.tested.tables.now) y g s) }
{
    let z = zone_of(&pricing.tested, g);
    let multipliers = &pricing.multipliers;
    Pair::none()
        .add_row(1000, multipliers, SPINNING, y, z, 0, s)
        .take_row(1000, multipliers, LOADING, y, g, 0, s)
        .take_row(1000, multipliers, OFFER, y, g, 0, s)
}
