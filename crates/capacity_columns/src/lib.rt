// The columns cap, build and retire.
// An index is asked below its count: the reason stands beside `Inside` (tables/specs/Layout.antt).
#![tactic(auto)]

ghost use Rattle.std.specs.Prelude.{◌≡◌, ◌<◌};
ghost use Rattle.sums.specs.Linear.{nothing, ∑};
ghost use Rattle.model.specs.Counts.{slices_of};
ghost use Rattle.model.specs.Standing.{cap_in_slice⁺, cap_in⁺, cap_in⁻, build_in⁻, retire_in⁺, retire_in⁻};
ghost use Rattle.column_terms.specs.Pairs.{pair_of};
ghost use Rattle.capacity_columns.specs.Groups.{rates_of, cap_in_slice⁻, cap_in_season⁺, cap_in_year⁺, cap_in_year⁻};
ghost use Rattle.tables.specs.Lists.{data_of};

use column_terms::Pair;
use column_terms::readers::{after_first_hour, available_hours, weighted_annuity, zone_of};
use duals::Pricing;
use parts::slices::on_min_load_day;
use tables::families::{
    AVAILABLE, CAPITAL, CHARGE_FALL, CHARGE_LIMIT, CHARGE_RISE, FIRM, FIXED, LIFE, LOADING,
    MINIMUM_LOAD, NEW_CAPACITY, OFFER, PROFILED, RAMP_DOWN, RAMP_UPWARD, STOCK, YEARLY_BUILD,
};
use tables::lists::Tables;
use tables::names::{CAP_CREDIT, MIN_CAP_FAC, OVER_LOAD, PROFILE, RAMP_DN, RAMP_UP, RES_OFFER};
use tables::sets::slices_of;

// The numbers of a plant that are its capacity's coefficients in every slice, and whether it is VRE or a battery.
#[derive(Clone, Copy)]
pub struct Rates {
    pub load: u64,
    pub offer: u64,
    pub down: u64,
    pub up: u64,
    pub least: u64,
    pub vre: bool,
    pub battery: bool,
}

#[tactic(auto, unfolding(crate::specs::Groups::rates_of))]
fn rates_of(tables: &Tables, g: usize) -> Rates
    requires { g < tables.now.counts.plants }
    ensures { result ≡ rates_of (data_of tables.now) g }
{
    Rates {
        load: 1000 + tables.by_plant(OVER_LOAD, g),
        offer: tables.by_plant(RES_OFFER, g),
        down: tables.by_plant(RAMP_DN, g),
        up: tables.by_plant(RAMP_UP, g),
        least: tables.by_plant(MIN_CAP_FAC, g),
        vre: tables.is_vre(g),
        battery: tables.is_battery(g),
    }
}

// The rows of one slice: families 5 to 9 and 11; of a battery also 22 to 24.
fn cap_in_slice(pricing: &Pricing, rates: Rates, y: usize, g: usize, s: usize) -> Pair
    requires { (rates ≡ rates_of (data_of pricing.now.tested.tables.now) g) × ((y < pricing.now.multipliers.counts.years) × ((g < pricing.now.multipliers.counts.plants) × (s < slices_of pricing.now.multipliers.counts))) }
    ensures { result ≡ pair_of pricing.now.multipliers.counts pricing.now.multipliers.list.now (cap_in_slice⁺ (data_of pricing.now.tested.tables.now) y g s) (cap_in_slice⁻ (data_of pricing.now.tested.tables.now) y g s) }
{
    let multipliers = &pricing.multipliers;
    let ramps = after_first_hour(multipliers.counts, s);
    let charging = rates.battery && ramps;
    let profile = pricing.tested.tables.by_plant_slice(PROFILE, g, s);
    let least = on_min_load_day(pricing.tested.tables, s);
    Pair::none()
        .add_row(rates.load, multipliers, LOADING, y, g, 0, s)
        .add_row(rates.offer, multipliers, OFFER, y, g, 0, s)
        .add_row_if(ramps, rates.down, multipliers, RAMP_DOWN, y, g, 0, s)
        .add_row_if(ramps, rates.up, multipliers, RAMP_UPWARD, y, g, 0, s)
        .add_row_if(rates.vre, profile, multipliers, PROFILED, y, g, 0, s)
        .take_row_if(least, rates.least, multipliers, MINIMUM_LOAD, y, g, 0, s)
        .add_row_if(rates.battery, 1, multipliers, CHARGE_LIMIT, y, g, 0, s)
        .add_row_if(charging, rates.down, multipliers, CHARGE_RISE, y, g, 0, s)
        .add_row_if(charging, rates.up, multipliers, CHARGE_FALL, y, g, 0, s)
}

fn cap_in_slices(pricing: &Pricing, y: usize, g: usize) -> Pair
    requires { (y < pricing.now.multipliers.counts.years) × (g < pricing.now.multipliers.counts.plants) }
    ensures { result ≡ pair_of pricing.now.multipliers.counts pricing.now.multipliers.list.now (∑ (slices_of pricing.now.multipliers.counts) (cap_in_slice⁺ (data_of pricing.now.tested.tables.now) y g)) (∑ (slices_of pricing.now.multipliers.counts) (cap_in_slice⁻ (data_of pricing.now.tested.tables.now) y g)) }
{
    let rates = rates_of(pricing.tested.tables, g);
    let n = slices_of(pricing.multipliers.counts);
    Pair::total(n, |s| cap_in_slice(pricing, rates, y, g, s))
}

// Family 10.
fn cap_in_season(pricing: &Pricing, y: usize, g: usize, q: usize) -> Pair
    requires { (y < pricing.now.multipliers.counts.years) × ((g < pricing.now.multipliers.counts.plants) × (q < pricing.now.multipliers.counts.seasons)) }
    ensures { result ≡ pair_of pricing.now.multipliers.counts pricing.now.multipliers.list.now (cap_in_season⁺ (data_of pricing.now.tested.tables.now) y g q) nothing }
{
    let hours = available_hours(&pricing.tested, g, q);
    Pair::none().add_row(hours, &pricing.multipliers, AVAILABLE, y, g, 0, q)
}

fn cap_in_seasons(pricing: &Pricing, y: usize, g: usize) -> Pair
    requires { (y < pricing.now.multipliers.counts.years) × (g < pricing.now.multipliers.counts.plants) }
    ensures { result ≡ pair_of pricing.now.multipliers.counts pricing.now.multipliers.list.now (∑ pricing.now.multipliers.counts.seasons (cap_in_season⁺ (data_of pricing.now.tested.tables.now) y g)) (∑ pricing.now.multipliers.counts.seasons (λ _. nothing)) }
{
    Pair::total(
        pricing.multipliers.counts.seasons,
        |q| cap_in_season(pricing, y, g, q),
    )
}

// The rows of the year: families 4, 12 (this year's and the next's), 13 and 18.
fn cap_in_year(pricing: &Pricing, y: usize, g: usize) -> Pair
    requires { (y < pricing.now.multipliers.counts.years) × (g < pricing.now.multipliers.counts.plants) }
    ensures { result ≡ pair_of pricing.now.multipliers.counts pricing.now.multipliers.list.now (cap_in_year⁺ (data_of pricing.now.tested.tables.now) y g) (cap_in_year⁻ (data_of pricing.now.tested.tables.now) y g) }
{
    let multipliers = &pricing.multipliers;
    let z = zone_of(&pricing.tested, g);
    let credit = pricing.tested.tables.by_plant(CAP_CREDIT, g);
    let next = y + 1;
    let out = pricing.tested.tables.out_of_service(y, g);
    let existing = pricing.tested.tables.is_existing(g);
    let annuity = weighted_annuity(&pricing.tested, y, g);
    Pair::none()
        .add_row(credit, multipliers, FIRM, y, z, 0, 0)
        .add_row(1, multipliers, STOCK, y, g, 0, 0)
        .take_row_if(
            next < multipliers.counts.years,
            1,
            multipliers,
            STOCK,
            next,
            g,
            0,
            0,
        )
        .take_row_if(out, 1, multipliers, LIFE, y, g, 0, 0)
        .take_row_if(!existing, annuity, multipliers, CAPITAL, 0, 0, 0, 0)
}

pub fn cap_column(pricing: &Pricing, y: usize, g: usize) -> Pair
    requires { (y < pricing.now.multipliers.counts.years) × (g < pricing.now.multipliers.counts.plants) }
    ensures { result ≡ pair_of pricing.now.multipliers.counts pricing.now.multipliers.list.now (cap_in⁺ (data_of pricing.now.tested.tables.now) y g) (cap_in⁻ (data_of pricing.now.tested.tables.now) y g) }
{
    let slices = cap_in_slices(pricing, y, g);
    let seasons = cap_in_seasons(pricing, y, g);
    let year = cap_in_year(pricing, y, g);
    slices.join(seasons).join(year)
}

// Families 12, 14, 15 and 16.
pub fn build_column(pricing: &Pricing, y: usize, g: usize) -> Pair
    requires { (y < pricing.now.multipliers.counts.years) × (g < pricing.now.multipliers.counts.plants) }
    ensures { result ≡ pair_of pricing.now.multipliers.counts pricing.now.multipliers.list.now nothing (build_in⁻ (data_of pricing.now.tested.tables.now) y g) }
{
    let multipliers = &pricing.multipliers;
    let existing = pricing.tested.tables.is_existing(g);
    Pair::none()
        .take_row_if(!existing, 1, multipliers, STOCK, y, g, 0, 0)
        .take_row_if(existing, 1, multipliers, FIXED, y, g, 0, 0)
        .take_row_if(!existing, 1, multipliers, NEW_CAPACITY, 0, g, 0, 0)
        .take_row_if(!existing, 1, multipliers, YEARLY_BUILD, y, g, 0, 0)
}

// Families 12 and 14.
pub fn retire_column(pricing: &Pricing, y: usize, g: usize) -> Pair
    requires { (y < pricing.now.multipliers.counts.years) × (g < pricing.now.multipliers.counts.plants) }
    ensures { result ≡ pair_of pricing.now.multipliers.counts pricing.now.multipliers.list.now (retire_in⁺ (data_of pricing.now.tested.tables.now) y g) (retire_in⁻ (data_of pricing.now.tested.tables.now) y g) }
{
    let later = pricing.tested.tables.is_existing(g) && 0 < y;
    Pair::none()
        .add_row_if(later, 1, &pricing.multipliers, STOCK, y, g, 0, 0)
        .take_row_if(!later, 1, &pricing.multipliers, FIXED, y, g, 0, 0)
}
