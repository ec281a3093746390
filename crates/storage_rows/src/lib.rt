// Families 21 to 25: the rows of batteries. A plant that is no battery has empty rows of 21, 23 and 24; those of 22 and 25 hold its charge and level to 0.
// An index is asked below its count: the reason stands beside `Inside` (tables/specs/Layout.antt).
#![tactic(auto, unfolding(row_sums::specs::Sides::sides_of, row_sums::specs::Sides::sides_with, constants::specs::Constants::constant_of), using(row_sums::proofs::Laws::exact_sums))]

ghost use Rattle.std.specs.Prelude.{◌≡◌, List, ℕ, ◌+◌, ◌*◌, ◌-◌, ◌%◌, ◌<◌, ltb, length, get_or};
ghost use Rattle.capped.specs.Cap.{cap};
ghost use Rattle.sums.specs.Sum.{on};
ghost use Rattle.model.specs.Counts.{slices_of, [g]};
ghost use Rattle.model.specs.Data.{is_battery};
ghost use Rattle.model.specs.Families.{row, only};
ghost use Rattle.tables.specs.Layout.{EntryAt, plan_entry};
ghost use Rattle.parts.specs.Years.{YearPart, gen_kind, charge_kind, level_kind};
ghost use Rattle.row_sums.specs.Sides.{sides_of, terms_of, ramp_of};
ghost use Rattle.tables.specs.Layout.{table_sets};
ghost use Rattle.tables.specs.Lists.{data_of, entry_of};

use capped::Sum;
use dispatch_rows::ramp;
use fleet_constants::level_limit_constant;
use parts::slices::first_hour;
use parts::years::part_at;
use row_sums::{Change, Sides, at_most, empty};
use tables::lists::{Case, Entries, Tables};
use tables::names::{CAP, EFFICIENCY};
use terms::totals::product_if;

// A year's part here and below is a bare slice, and each contract says what it is: document 01 has it as a slice part, handed on to row tests and posting.
// No struct of all the year's parts (`rows::years::Year`) is handed over: it would ask each row for parts that it does not read.

// 21 (42, 43), battery: level = level[s−1] (0 before a day's first slice) + Efficiency·charge − 1000·gen
pub fn battery_level(
    tables: &Tables,
    outputs: &[u32],
    charges: &[u32],
    levels: &[u32],
    g: usize,
    s: usize,
) -> Sides
    requires { ((length outputs.now ≡ tables.now.counts.plants * slices_of tables.now.counts) × ((length charges.now ≡ tables.now.counts.plants * slices_of tables.now.counts) × (length levels.now ≡ tables.now.counts.plants * slices_of tables.now.counts))) × ((g < tables.now.counts.plants) × (s < slices_of tables.now.counts)) }
    ensures { (plan : List ℕ) (y : ℕ) → YearPart plan outputs.now tables.now.counts gen_kind y → YearPart plan charges.now tables.now.counts charge_kind y → YearPart plan levels.now tables.now.counts level_kind y
        → (N : ℕ) → result ≡ sides_of (data_of tables.now) N (plan_entry tables.now.counts plan) (row 21 y g 0 s) }
{
    if !tables.is_battery(g) {
        return empty();
    }
    let level = capped::product(1, part_at(levels, tables.counts, g, s));
    let above = capped::add_product(level, 1000, part_at(outputs, tables.counts, g, s));
    let efficiency = tables.by_plant(EFFICIENCY, g);
    let earlier = earlier_level(tables, levels, g, s);
    Sides {
        above,
        below: capped::add_product(earlier, efficiency, part_at(charges, tables.counts, g, s)),
    }
}

// The level of the hour before, 0 before a day's first.
fn earlier_level(tables: &Tables, levels: &[u32], g: usize, s: usize) -> Sum
    requires { (length levels.now ≡ tables.now.counts.plants * slices_of tables.now.counts) × ((g < tables.now.counts.plants) × (s < slices_of tables.now.counts)) }
    ensures { result ≡ cap (on (ltb 0 (s % tables.now.counts.hours)) (1 * get_or levels.now (g * slices_of tables.now.counts + (s - 1)) 0)) }
{
    if first_hour(tables.counts, s) {
        return capped::zero();
    }
    capped::product(1, part_at(levels, tables.counts, g, s - 1))
}

// 22 (45): battery: charge ≤ cap; any other plant: charge ≤ 0
pub fn charge_limit(case: &Case, charges: &[u32], y: usize, g: usize, s: usize) -> Sides
    requires { YearPart case.now.plan.list.now charges.now case.now.plan.counts charge_kind y × ((y < case.now.plan.counts.years) × ((g < case.now.plan.counts.plants) × (s < slices_of case.now.plan.counts))) }
    ensures { (N : ℕ) → result ≡ sides_of (data_of case.now.tables) N (entry_of case.now.plan) (row 22 y g 0 s) }
{
    let limit = case.plan.by_year_plant(CAP, y, g);
    Sides {
        above: product_if(case.tables.is_battery(g), 1, limit),
        below: capped::product(1, part_at(charges, case.plan.counts, g, s)),
    }
}

// 23 (47), battery: the rise of charge, RampDn; 24 (48): its fall, RampUp
pub fn charge_ramp(
    case: &Case,
    charges: &[u32],
    rate: usize,
    change: Change,
    y: usize,
    g: usize,
    s: usize,
) -> Sides
    requires { (EntryAt table_sets case.now.plan.counts rate [g] 0 g 0 0 × YearPart case.now.plan.list.now charges.now case.now.plan.counts charge_kind y) × ((y < case.now.plan.counts.years) × ((g < case.now.plan.counts.plants) × (s < slices_of case.now.plan.counts))) }
    ensures { result ≡ terms_of (only (is_battery (data_of case.now.tables) g) (ramp_of (data_of case.now.tables) ((data_of case.now.tables).entry rate 0 g 0 0) charge_kind change y g s)) (entry_of case.now.plan) }
{
    if !case.tables.is_battery(g) {
        return empty();
    }
    ramp(case, charges, rate, change, y, g, s)
}

// 25 (46): battery: level ≤ energy capacity; any other plant: level ≤ 0
pub fn level_limit(tables: &Tables, levels: &[u32], scale: u64, g: usize, s: usize) -> Sides
    requires { (length levels.now ≡ tables.now.counts.plants * slices_of tables.now.counts) × ((g < tables.now.counts.plants) × (s < slices_of tables.now.counts)) }
    ensures { (plan : List ℕ) (y : ℕ) → YearPart plan levels.now tables.now.counts level_kind y → result ≡ sides_of (data_of tables.now) scale (plan_entry tables.now.counts plan) (row 25 y g 0 s) }
{
    at_most(
        capped::product(1, part_at(levels, tables.counts, g, s)),
        scale,
        level_limit_constant(tables, g),
    )
}
