// Families 5 to 11: the rows of a plant's dispatch. None has a constant: its two sums are the same at every scale.
// An index is asked below its count: the reason stands beside `Inside` (tables/specs/Layout.antt).
#![tactic(auto, unfolding(row_sums::specs::Sides::sides_of, row_sums::specs::Sides::sides_with, constants::specs::Constants::constant_of), using(row_sums::proofs::Laws::exact_sums))]

ghost use Rattle.std.specs.Prelude.{◌≡◌, ℕ, ◌+◌, ◌*◌, ◌≤◌, ◌<◌, length, get_or};
ghost use Rattle.capped.specs.Cap.{cap};
ghost use Rattle.model.specs.Counts.{slices_of, [g]};
ghost use Rattle.model.specs.Columns.{cap as cap_column};
ghost use Rattle.model.specs.Families.{row};
ghost use Rattle.tables.specs.Layout.{EntryAt};
ghost use Rattle.parts.specs.Years.{YearPart, gen_kind, reserve_kind};
ghost use Rattle.energy.specs.Energies.{Energies};
ghost use Rattle.row_sums.specs.Sides.{sides_of, terms_of, high, low, ramp_of};
ghost use Rattle.tables.specs.Layout.{table_sets};
ghost use Rattle.tables.specs.Lists.{data_of, entry_of};

use capped::Sum;
use energy::totals::{EnergyTable, energy_at};
use parts::slices::{first_hour, on_min_load_day};
use parts::years::part_at;
use row_sums::{Change, Sides, empty};
use tables::lists::{Case, Entries, Plan};
use tables::names::{AVAILABILITY, CAP, MIN_CAP_FAC, OVER_LOAD, PROFILE, RES_OFFER};
use terms::plants::season_hours;

// rate·cap, the rate in thousandths.
fn rate_of_capacity(plan: &Plan, rate: u64, y: usize, g: usize) -> Sum
    requires { (y < plan.now.counts.years) × (g < plan.now.counts.plants) }
    ensures { result ≡ cap (rate * entry_of plan.now (cap_column y g)) }
{
    capped::product(rate, plan.by_year_plant(CAP, y, g))
}

// A year's part here and below is a bare slice, and each contract says what it is: document 01 has it as a slice part, handed on to row tests and posting.
// No struct of all the year's parts (`rows::years::Year`) is handed over: it would ask each row for parts that it does not read.

// 1000 times an entry of a year's part of gen, reserve or charge, to stand beside a rate of capacity.
fn in_thousandths(plan: &Plan, part: &[u32], g: usize, s: usize) -> Sum
    requires { (length part.now ≡ plan.now.counts.plants * slices_of plan.now.counts) × ((g < plan.now.counts.plants) × (s < slices_of plan.now.counts)) }
    ensures { result ≡ cap (1000 * get_or part.now (g * slices_of plan.now.counts + s) 0) }
{
    capped::product(1000, part_at(part, plan.counts, g, s))
}

// 5 (22): 1000·(gen + reserve) ≤ (1000 + OverLoad)·cap
pub fn loading(
    case: &Case,
    outputs: &[u32],
    reserves: &[u32],
    y: usize,
    g: usize,
    s: usize,
) -> Sides
    requires { (YearPart case.now.plan.list.now outputs.now case.now.plan.counts gen_kind y × YearPart case.now.plan.list.now reserves.now case.now.plan.counts reserve_kind y) × ((y < case.now.plan.counts.years) × ((g < case.now.plan.counts.plants) × (s < slices_of case.now.plan.counts))) }
    ensures { (N : ℕ) → result ≡ sides_of (data_of case.now.tables) N (entry_of case.now.plan) (row 5 y g 0 s) }
{
    let rate = 1000 + case.tables.by_plant(OVER_LOAD, g);
    Sides {
        above: rate_of_capacity(&case.plan, rate, y, g),
        below: capped::join(
            in_thousandths(&case.plan, outputs, g, s),
            in_thousandths(&case.plan, reserves, g, s),
        ),
    }
}

// 6 (23): 1000·reserve ≤ ResOffer·cap
pub fn offer(case: &Case, reserves: &[u32], y: usize, g: usize, s: usize) -> Sides
    requires { YearPart case.now.plan.list.now reserves.now case.now.plan.counts reserve_kind y × ((y < case.now.plan.counts.years) × ((g < case.now.plan.counts.plants) × (s < slices_of case.now.plan.counts))) }
    ensures { (N : ℕ) → result ≡ sides_of (data_of case.now.tables) N (entry_of case.now.plan) (row 6 y g 0 s) }
{
    let rate = case.tables.by_plant(RES_OFFER, g);
    Sides {
        above: rate_of_capacity(&case.plan, rate, y, g),
        below: in_thousandths(&case.plan, reserves, g, s),
    }
}

// A ramp over the hour before, t > 0, of a year's part of gen or charge: 1000 times its fall, or its rise, is at most the table `rate` times cap.
// 7 (24): the fall of gen, RampDn; 8 (25): its rise, RampUp; 23 and 24 by `charge_ramp`.
pub fn ramp(
    case: &Case,
    part: &[u32],
    rate: usize,
    change: Change,
    y: usize,
    g: usize,
    s: usize,
) -> Sides
    requires { (EntryAt table_sets case.now.plan.counts rate [g] 0 g 0 0 × (length part.now ≡ case.now.plan.counts.plants * slices_of case.now.plan.counts)) × ((y < case.now.plan.counts.years) × ((g < case.now.plan.counts.plants) × (s < slices_of case.now.plan.counts))) }
    ensures { (k : ℕ) → YearPart case.now.plan.list.now part.now case.now.plan.counts k y → result ≡ terms_of (ramp_of (data_of case.now.tables) ((data_of case.now.tables).entry rate 0 g 0 0) k change y g s) (entry_of case.now.plan) }
{
    if first_hour(case.plan.counts, s) {
        return empty();
    }
    let (high, low) = high_and_low(change, s);
    let allowed = rate_of_capacity(&case.plan, case.tables.by_plant(rate, g), y, g);
    Sides {
        above: capped::join(allowed, in_thousandths(&case.plan, part, g, low)),
        below: in_thousandths(&case.plan, part, g, high),
    }
}

// Of a slice and the one before it, the one whose column may not lie too far above the other's, then the other.
fn high_and_low(change: Change, s: usize) -> (usize, usize)
    requires { 1 ≤ s }
    ensures are { (result.0 ≡ high change s) × (result.1 ≡ low change s) }
    ensures within { (result.0 ≤ s) × (result.1 ≤ s) }
{
    match change {
        Change::Fall => (s - 1, s),
        Change::Rise => (s, s - 1),
    }
}

// 9 (26), minimum-load days: 1000·gen ≥ MinCapFac·cap
pub fn minimum_load(case: &Case, outputs: &[u32], y: usize, g: usize, s: usize) -> Sides
    requires { YearPart case.now.plan.list.now outputs.now case.now.plan.counts gen_kind y × ((y < case.now.plan.counts.years) × ((g < case.now.plan.counts.plants) × (s < slices_of case.now.plan.counts))) }
    ensures { (N : ℕ) → result ≡ sides_of (data_of case.now.tables) N (entry_of case.now.plan) (row 9 y g 0 s) }
{
    if !on_min_load_day(&case.tables, s) {
        return empty();
    }
    let rate = case.tables.by_plant(MIN_CAP_FAC, g);
    Sides {
        above: in_thousandths(&case.plan, outputs, g, s),
        below: rate_of_capacity(&case.plan, rate, y, g),
    }
}

// 10 (27): 1000·Σ Dur·gen ≤ Availability·(Σ Dur)·cap, over the season
pub fn available(case: &Case, energy: &EnergyTable, y: usize, g: usize, q: usize) -> Sides
    requires { (Energies (data_of case.now.tables) (entry_of case.now.plan) energy.now case.now.plan.counts) × ((y < case.now.plan.counts.years) × ((g < case.now.plan.counts.plants) × (q < case.now.plan.counts.seasons))) }
    ensures { (N : ℕ) → result ≡ sides_of (data_of case.now.tables) N (entry_of case.now.plan) (row 10 y g 0 q) }
{
    let rate = case.tables.by_plant_season(AVAILABILITY, g, q);
    let above = capped::add_product3(
        capped::zero(),
        rate,
        season_hours(&case.tables, q),
        case.plan.by_year_plant(CAP, y, g),
    );
    Sides {
        above,
        below: capped::scale(energy_at(energy, case.plan.counts, y, g, q), 1000),
    }
}

// 11 (28), VRE: 1000·gen ≤ Profile·cap
pub fn profiled(case: &Case, outputs: &[u32], y: usize, g: usize, s: usize) -> Sides
    requires { YearPart case.now.plan.list.now outputs.now case.now.plan.counts gen_kind y × ((y < case.now.plan.counts.years) × ((g < case.now.plan.counts.plants) × (s < slices_of case.now.plan.counts))) }
    ensures { (N : ℕ) → result ≡ sides_of (data_of case.now.tables) N (entry_of case.now.plan) (row 11 y g 0 s) }
{
    if !case.tables.is_vre(g) {
        return empty();
    }
    let rate = case.tables.by_plant_slice(PROFILE, g, s);
    Sides {
        above: rate_of_capacity(&case.plan, rate, y, g),
        below: in_thousandths(&case.plan, outputs, g, s),
    }
}
