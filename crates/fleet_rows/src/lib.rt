// Families 12 to 20: the rows of the fleet: capacity, builds, fuel, capital and emissions.
// An index is asked below its count: the reason stands beside `Inside` (tables/specs/Layout.antt).
#![tactic(auto, unfolding(row_sums::specs::Sides::sides_of, row_sums::specs::Sides::sides_with, constants::specs::Constants::constant_of), using(row_sums::proofs::Laws::exact_sums))]

ghost use Rattle.std.specs.Prelude.{◌≡◌, ℕ, ◌<◌};
ghost use Rattle.sums.specs.Index.{Index};
ghost use Rattle.model.specs.Families.{row};
ghost use Rattle.energy.specs.Energies.{Energies};
ghost use Rattle.row_sums.specs.Sides.{sides_of};
ghost use Rattle.tables.specs.Lists.{data_of, entry_of};

use energy::totals::{EnergyTable, burned, emitted, emitted_in};
use fleet_constants::{
    capital_constant, fuel_use_constant, new_capacity_constant, stock_constant,
    system_emission_constant, yearly_build_constant, zone_emission_constant,
};
use row_sums::{Sides, at_most, at_most_zero, empty, with_constant};
use tables::lists::{Case, Entries, Tables};
use tables::names::{BUILD, CAP, RETIRE};
use tables::sets::BY_YEAR_PLANT;
use terms::plants::capital_sum;
use terms::years::{earlier, over_years};

// `case` and `scale` stand together where a row has a constant. A `Case` with the scale in it would ask for a scale where costs and energies are made,
// which need none.
// A row without a constant is the same at every scale and takes none.
// `tables` and `energy` stand together below: that these are the data's energies (`Energies`) is a premise of the promise, and not asked. A struct that held
// the fact, as `rows::years::TestedCase` of the one caller does, would ask it.

// 12 (34): existing, first year: cap = GenCap; later: cap = earlier cap − retire. Candidate: cap = earlier cap (0 in the first year) + build
pub fn stock(case: &Case, scale: u64, y: usize, g: usize) -> Sides
    requires { (y < case.now.plan.counts.years) × (g < case.now.plan.counts.plants) }
    ensures { result ≡ sides_of (data_of case.now.tables) scale (entry_of case.now.plan) (row 12 y g 0 0) }
{
    let own = capped::product(1, case.plan.by_year_plant(CAP, y, g));
    let before = earlier(&case.plan, CAP, BY_YEAR_PLANT, y, g, 0);
    if !case.tables.is_existing(g) {
        return Sides {
            above: own,
            below: capped::add_product(before, 1, case.plan.by_year_plant(BUILD, y, g)),
        };
    }
    if y == 0 {
        return with_constant(own, before, scale, stock_constant(&case.tables, y, g));
    }
    Sides {
        above: capped::add_product(own, 1, case.plan.by_year_plant(RETIRE, y, g)),
        below: before,
    }
}

// 13 (37): cap ≤ 0 for an existing plant from its retirement year on, for a candidate before its commission year
pub fn life(case: &Case, y: usize, g: usize) -> Sides
    requires { (y < case.now.plan.counts.years) × (g < case.now.plan.counts.plants) }
    ensures { (N : ℕ) → result ≡ sides_of (data_of case.now.tables) N (entry_of case.now.plan) (row 13 y g 0 0) }
{
    if !case.tables.out_of_service(y, g) {
        return empty();
    }
    at_most_zero(capped::product(1, case.plan.by_year_plant(CAP, y, g)))
}

// 14 (61): existing: in the first year build + retire ≤ 0, later build ≤ 0; candidate: retire ≤ 0
pub fn fixed(case: &Case, y: usize, g: usize) -> Sides
    requires { (y < case.now.plan.counts.years) × (g < case.now.plan.counts.plants) }
    ensures { (N : ℕ) → result ≡ sides_of (data_of case.now.tables) N (entry_of case.now.plan) (row 14 y g 0 0) }
{
    let retire = case.plan.by_year_plant(RETIRE, y, g);
    if !case.tables.is_existing(g) {
        return at_most_zero(capped::product(1, retire));
    }
    let build = capped::product(1, case.plan.by_year_plant(BUILD, y, g));
    at_most_zero(capped::add_product_if(y == 0, build, 1, retire))
}

// 15 (55), candidate: Σ build ≤ MaxNewCap
pub fn new_capacity(case: &Case, scale: u64, g: usize) -> Sides
    requires { g < case.now.plan.counts.plants }
    ensures { result ≡ sides_of (data_of case.now.tables) scale (entry_of case.now.plan) (row 15 0 g 0 0) }
{
    if case.tables.is_existing(g) {
        return empty();
    }
    at_most(
        over_years(&case.plan, BUILD, BY_YEAR_PLANT, g, 0),
        scale,
        new_capacity_constant(&case.tables, g),
    )
}

// 16 (58), candidate: build ≤ BuildLimit·V
pub fn yearly_build(case: &Case, scale: u64, y: usize, g: usize) -> Sides
    requires { (y < case.now.plan.counts.years) × (g < case.now.plan.counts.plants) }
    ensures { result ≡ sides_of (data_of case.now.tables) scale (entry_of case.now.plan) (row 16 y g 0 0) }
{
    if case.tables.is_existing(g) {
        return empty();
    }
    at_most(
        capped::product(1, case.plan.by_year_plant(BUILD, y, g)),
        scale,
        yearly_build_constant(&case.tables, y, g),
    )
}

// 17 (62): Σ Dur·HeatRate·gen of that zone and fuel ≤ 1000·MaxFuel
pub fn fuel_use(
    tables: &Tables,
    energy: &EnergyTable,
    scale: u64,
    y: usize,
    z: usize,
    f: usize,
) -> Sides
    requires { (y < tables.now.counts.years) × ((z < tables.now.counts.zones) × (f < tables.now.counts.fuels)) }
    ensures { (x : Index → ℕ) → Energies (data_of tables.now) x energy.now tables.now.counts → result ≡ sides_of (data_of tables.now) scale x (row 17 y z f 0) }
{
    at_most(
        burned(tables, energy, y, z as u64, f as u64),
        scale,
        fuel_use_constant(tables, y, f),
    )
}

// 18 (64): Σ R·V·Annuity·cap of candidates ≤ 10⁹·MaxCapital
pub fn capital(case: &Case, scale: u64) -> Sides
    ensures { result ≡ sides_of (data_of case.now.tables) scale (entry_of case.now.plan) (row 18 0 0 0 0) }
{
    at_most(capital_sum(case), scale, capital_constant(&case.tables))
}

// 19 (66): Σ Dur·E·gen in z ≤ 1000·zone cap
pub fn zone_emission(tables: &Tables, energy: &EnergyTable, scale: u64, y: usize, z: usize) -> Sides
    requires { (y < tables.now.counts.years) × (z < tables.now.counts.zones) }
    ensures { (x : Index → ℕ) → Energies (data_of tables.now) x energy.now tables.now.counts → result ≡ sides_of (data_of tables.now) scale x (row 19 y z 0 0) }
{
    at_most(
        emitted_in(tables, energy, y, z as u64),
        scale,
        zone_emission_constant(tables, y, z),
    )
}

// 20 (68): Σ Dur·E·gen ≤ 1000·system cap
pub fn system_emission(tables: &Tables, energy: &EnergyTable, scale: u64, y: usize) -> Sides
    requires { y < tables.now.counts.years }
    ensures { (x : Index → ℕ) → Energies (data_of tables.now) x energy.now tables.now.counts → result ≡ sides_of (data_of tables.now) scale x (row 20 y 0 0 0) }
{
    at_most(
        emitted(tables, energy, y),
        scale,
        system_emission_constant(tables, y),
    )
}
