// The two sums of any row: its family decides which.
// An index is asked below its count: the reason stands beside `Inside` (tables/specs/Layout.antt).
#![tactic(auto)]

ghost use Rattle.std.specs.Prelude.{◌≡◌, ◌<◌};
ghost use Rattle.sums.specs.Index.{index_of};
ghost use Rattle.model.specs.Families.{family_of, family_count};
ghost use Rattle.tables.specs.Layout.{Inside};
ghost use Rattle.row_sums.specs.Sides.{sides_of};
ghost use Rattle.tables.specs.Lists.{data_of, entry_of};

pub mod years;

use crate::years::Year;
use cable_rows::{line_balance, lines_both_ways, new_lines};
use dispatch_rows::{available, loading, minimum_load, offer, profiled, ramp};
use fleet_rows::{
    capital, fixed, fuel_use, life, new_capacity, stock, system_emission, yearly_build,
    zone_emission,
};
use row_sums::{Change, Sides};
use storage_rows::{battery_level, charge_limit, charge_ramp, level_limit};
use sums::Place;
use tables::families::{
    AVAILABLE, BALANCE, BATTERY_LEVEL, CAPITAL, CHARGE_FALL, CHARGE_LIMIT, CHARGE_RISE, FIRM,
    FIXED, FUEL_USE, LEVEL_LIMIT, LIFE, LINE_BALANCE, LOADING, MINIMUM_LOAD, NEW_CAPACITY,
    NEW_LINES, OFFER, PROFILED, RAMP_DOWN, RAMP_UPWARD, SPINNING, STOCK, SYSTEM_EMISSION, TRANSFER,
    YEARLY_BUILD, ZONE_EMISSION,
};
use tables::names::{RAMP_DN, RAMP_UP};
use zone_rows::{balance, firm, spinning, transfer};

// The kind of `p` is the row's family, counted from 0. The match over the families is the form that document 01 names.
#[tactic(auto, unfolding(model::specs::Families::family_of), using(tables::proofs::Laws::last_arm))]
pub fn row_sides(year: &Year, scale: u64, p: Place) -> Sides
    requires { (p.year ≡ year.now.year) × ((p.kind < family_count) × (Inside year.now.tested.case.now.plan.counts (family_of p.kind).set p.year p.first p.second p.slice)) }
    ensures { result ≡ sides_of (data_of year.now.tested.case.now.tables) scale (entry_of year.now.tested.case.now.plan) (index_of p) }
{
    let case = year.tested.case;
    let outputs = year.outputs;
    let reserves = year.reserves;
    let charges = year.charges;
    let levels = year.levels;
    let energy = year.tested.energy;
    let y = year.year;
    let i = p.first;
    let j = p.second;
    let s = p.slice;
    match p.kind {
        BALANCE => balance(case, outputs, charges, scale, y, i, s),
        TRANSFER => transfer(case, scale, y, i, j, s),
        SPINNING => spinning(case, outputs, reserves, scale, y, i, s),
        FIRM => firm(case, scale, y, i),
        LOADING => loading(case, outputs, reserves, y, i, s),
        OFFER => offer(case, reserves, y, i, s),
        RAMP_DOWN => ramp(case, outputs, RAMP_DN, Change::Fall, y, i, s),
        RAMP_UPWARD => ramp(case, outputs, RAMP_UP, Change::Rise, y, i, s),
        MINIMUM_LOAD => minimum_load(case, outputs, y, i, s),
        AVAILABLE => available(case, energy, y, i, s),
        PROFILED => profiled(case, outputs, y, i, s),
        STOCK => stock(case, scale, y, i),
        LIFE => life(case, y, i),
        FIXED => fixed(case, y, i),
        NEW_CAPACITY => new_capacity(case, scale, i),
        YEARLY_BUILD => yearly_build(case, scale, y, i),
        FUEL_USE => fuel_use(&case.tables, energy, scale, y, i, j),
        CAPITAL => capital(case, scale),
        ZONE_EMISSION => zone_emission(&case.tables, energy, scale, y, i),
        SYSTEM_EMISSION => system_emission(&case.tables, energy, scale, y),
        BATTERY_LEVEL => battery_level(&case.tables, outputs, charges, levels, i, s),
        CHARGE_LIMIT => charge_limit(case, charges, y, i, s),
        CHARGE_RISE => charge_ramp(case, charges, RAMP_DN, Change::Rise, y, i, s),
        CHARGE_FALL => charge_ramp(case, charges, RAMP_UP, Change::Fall, y, i, s),
        LEVEL_LIMIT => level_limit(&case.tables, levels, scale, i, s),
        LINE_BALANCE => line_balance(&case.plan, y, i, j),
        NEW_LINES => new_lines(case, scale, i, j),
        // LINES_BOTH_WAYS
        _ => lines_both_ways(&case.plan, y, i, j),
    }
}
