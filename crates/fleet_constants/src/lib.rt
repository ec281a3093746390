// Families 12, 15 to 20 and 25: the constants of the rows of the fleet.
// An index is asked below its count: the reason stands beside `Inside` (tables/specs/Layout.antt).
#![tactic(auto, unfolding(constants::specs::Constants::constant_of))]

ghost use Rattle.std.specs.Prelude.{◌≡◌, ◌<◌};
ghost use Rattle.model.specs.Families.{row};
ghost use Rattle.constants.specs.Constants.{constant_of};
ghost use Rattle.tables.specs.Lists.{data_of};

use constants::{Constant, NONE};
use tables::lists::{Entries, Tables};
use tables::names::{
    BUILD_LIMIT, ENERGY_CAPACITY, GEN_CAP, MAX_CAPITAL, MAX_FUEL, MAX_NEW_CAP, SYSTEM_CAP, WEIGHT,
    ZONE_CAP,
};

// 12: existing, first year: − GenCap
pub fn stock_constant(tables: &Tables, y: usize, g: usize) -> Constant
    requires { (y < tables.now.counts.years) × (g < tables.now.counts.plants) }
    ensures { result ≡ constant_of (data_of tables.now) (row 12 y g 0 0) }
{
    if y != 0 || !tables.is_existing(g) {
        return NONE;
    }
    Constant::taking(tables.by_plant(GEN_CAP, g))
}

// 15, candidate: MaxNewCap
pub fn new_capacity_constant(tables: &Tables, g: usize) -> Constant
    requires { g < tables.now.counts.plants }
    ensures { result ≡ constant_of (data_of tables.now) (row 15 0 g 0 0) }
{
    if tables.is_existing(g) {
        return NONE;
    }
    Constant::adding(tables.by_plant(MAX_NEW_CAP, g))
}

// 16, candidate: BuildLimit·V
pub fn yearly_build_constant(tables: &Tables, y: usize, g: usize) -> Constant
    requires { (y < tables.now.counts.years) × (g < tables.now.counts.plants) }
    ensures { result ≡ constant_of (data_of tables.now) (row 16 y g 0 0) }
{
    if tables.is_existing(g) {
        return NONE;
    }
    let limit = tables.by_year(BUILD_LIMIT, y);
    let weight = tables.by_year(WEIGHT, y);
    Constant::adding(limit * weight)
}

// 17: 1000·MaxFuel, the same in every zone
pub fn fuel_use_constant(tables: &Tables, y: usize, f: usize) -> Constant
    requires { (y < tables.now.counts.years) × (f < tables.now.counts.fuels) }
    ensures { result ≡ constant_of (data_of tables.now) (row 17 y 0 f 0) }
{
    Constant::adding(1000 * tables.by_year_fuel(MAX_FUEL, y, f))
}

// 18: 10⁹·MaxCapital
pub fn capital_constant(tables: &Tables) -> Constant
    ensures { result ≡ constant_of (data_of tables.now) (row 18 0 0 0 0) }
{
    Constant::adding(1000000000 * tables.single(MAX_CAPITAL))
}

// 19: 1000·zone cap
pub fn zone_emission_constant(tables: &Tables, y: usize, z: usize) -> Constant
    requires { (y < tables.now.counts.years) × (z < tables.now.counts.zones) }
    ensures { result ≡ constant_of (data_of tables.now) (row 19 y z 0 0) }
{
    Constant::adding(1000 * tables.by_year_zone(ZONE_CAP, y, z))
}

// 20: 1000·system cap
pub fn system_emission_constant(tables: &Tables, y: usize) -> Constant
    requires { y < tables.now.counts.years }
    ensures { result ≡ constant_of (data_of tables.now) (row 20 y 0 0 0) }
{
    Constant::adding(1000 * tables.by_year(SYSTEM_CAP, y))
}

// 25, battery: energy capacity, the same in every year and slice
pub fn level_limit_constant(tables: &Tables, g: usize) -> Constant
    requires { g < tables.now.counts.plants }
    ensures { result ≡ constant_of (data_of tables.now) (row 25 0 g 0 0) }
{
    if !tables.is_battery(g) {
        return NONE;
    }
    Constant::adding(tables.by_plant(ENERGY_CAPACITY, g))
}
