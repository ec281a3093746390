// Families 1 to 4: the rows of a zone.
// An index is asked below its count: the reason stands beside `Inside` (tables/specs/Layout.antt).
#![tactic(auto, unfolding(row_sums::specs::Sides::sides_of, row_sums::specs::Sides::sides_with, constants::specs::Constants::constant_of), using(row_sums::proofs::Laws::exact_sums))]

ghost use Rattle.std.specs.Prelude.{◌≡◌, ℕ, ◌+◌, ◌*◌, ◌<◌, eqb, length};
ghost use Rattle.capped.specs.Cap.{cap};
ghost use Rattle.sums.specs.Span.{fine};
ghost use Rattle.sums.specs.Sum.{sum, on};
ghost use Rattle.sums.specs.Index.{index};
ghost use Rattle.model.specs.Counts.{slices_of, [yzs]};
ghost use Rattle.model.specs.Data.{zone};
ghost use Rattle.model.specs.Families.{row};
ghost use Rattle.model.specs.Tests.{entries_fault};
ghost use Rattle.parts.specs.Years.{YearPart, gen_kind, reserve_kind, charge_kind};
ghost use Rattle.row_sums.specs.Sides.{sides_of};
ghost use Rattle.model.specs.Columns.{column_sets};
ghost use Rattle.tables.specs.Layout.{EntryAt};
ghost use Rattle.tables.specs.Lists.{data_of, entry_of};

use capped::Sum;
use links::{Direction, flows, lines_into, received};
use row_sums::{Sides, with_constant};
use tables::lists::{Case, Entries, TestedTables};
use tables::names::{ERR, FIRMSHORT, MW_PER_LINE, SPINSHORT, SURPLUS, TOTAL_LINES, TRANS, UNMET};
use terms::plants::{credit_sum, vre_sum, zone_sum};
use zone_constants::{balance_constant, firm_constant, spinning_constant, transfer_constant};

// A year's part here and below is a bare slice, and each contract says what it is: document 01 has it as a slice part, handed on to row tests and posting.
// No struct of all the year's parts (`rows::years::Year`) is handed over: it would ask each row for parts that it does not read.
// `case` and `scale` stand together as in `fleet_rows`: a row without a constant takes no scale.

// 1 (14): 1000·Σ gen in z − 1000·Σ charge in z − 1000·Σ trans[z,z2] + Σ (1000 − Loss[z2,z])·trans[z2,z] + unmet − surplus = Demand·EE
pub fn balance(
    case: &Case,
    outputs: &[u32],
    charges: &[u32],
    scale: u64,
    y: usize,
    z: usize,
    s: usize,
) -> Sides
    requires { ((entries_fault (data_of case.now.tables) ≡ fine) × (YearPart case.now.plan.list.now outputs.now case.now.plan.counts gen_kind y × YearPart case.now.plan.list.now charges.now case.now.plan.counts charge_kind y)) × ((y < case.now.plan.counts.years) × ((z < case.now.plan.counts.zones) × (s < slices_of case.now.plan.counts))) }
    ensures { result ≡ sides_of (data_of case.now.tables) scale (entry_of case.now.plan) (row 1 y z 0 s) }
{
    let arrived = received(case, y, z, s);
    let above = in_zone(case, outputs, arrived, UNMET, y, z, s);
    let sent = flows(&case.plan, Direction::Outward, y, z, s);
    let below = in_zone(case, charges, sent, SURPLUS, y, z, s);
    with_constant(
        above,
        below,
        scale,
        balance_constant(
            &TestedTables {
                tables: &case.tables,
            },
            y,
            z,
            s,
        ),
    )
}

// One side of a zone's balance: 1000 times what its plants make or charge (`part`), what comes over its links or goes, and unmet or surplus (`kind`).
fn in_zone(case: &Case, part: &[u32], links: Sum, kind: usize, y: usize, z: usize, s: usize) -> Sum
    requires { (EntryAt column_sets case.now.plan.counts kind [yzs] y z 0 s × (length part.now ≡ case.now.plan.counts.plants * slices_of case.now.plan.counts)) × (s < slices_of case.now.plan.counts) }
    ensures { (k m : ℕ) → YearPart case.now.plan.list.now part.now case.now.plan.counts k y → links ≡ cap m
        → result ≡ cap (sum case.now.plan.counts.plants (λ g. on (eqb (zone (data_of case.now.tables) g) z) (1000 * entry_of case.now.plan (index k y g 0 s))) + m + 1 * entry_of case.now.plan (index kind y z 0 s)) }
{
    let plants = zone_sum(&case.tables, part, z as u64, s);
    capped::add_product(
        capped::join(plants, links),
        1,
        case.plan.by_year_zone_slice(kind, y, z, s),
    )
}

// 2 (15): trans ≤ TL + MW per line·total
pub fn transfer(case: &Case, scale: u64, y: usize, z: usize, w: usize, s: usize) -> Sides
    requires { (y < case.now.plan.counts.years) × ((z < case.now.plan.counts.zones) × ((w < case.now.plan.counts.zones) × (s < slices_of case.now.plan.counts))) }
    ensures { result ≡ sides_of (data_of case.now.tables) scale (entry_of case.now.plan) (row 2 y z w s) }
{
    let power = case.tables.by_pair(MW_PER_LINE, z, w);
    let lines = capped::product(power, case.plan.by_link(TOTAL_LINES, y, z, w));
    let flow = capped::product(1, case.plan.by_link_slice(TRANS, y, z, w, s));
    with_constant(
        lines,
        flow,
        scale,
        transfer_constant(&case.tables, y, z, w, s),
    )
}

// 3 (19): 1000·Σ reserve in z + spinshort + 1000·Σ (TL[z2,z] + MW per line[z2,z]·total[z2,z] − trans[z2,z]) ≥ 1000·SRes + Err·Σ gen of VRE in z
pub fn spinning(
    case: &Case,
    outputs: &[u32],
    reserves: &[u32],
    scale: u64,
    y: usize,
    z: usize,
    s: usize,
) -> Sides
    requires { (YearPart case.now.plan.list.now outputs.now case.now.plan.counts gen_kind y × YearPart case.now.plan.list.now reserves.now case.now.plan.counts reserve_kind y) × ((y < case.now.plan.counts.years) × ((z < case.now.plan.counts.zones) × (s < slices_of case.now.plan.counts))) }
    ensures { result ≡ sides_of (data_of case.now.tables) scale (entry_of case.now.plan) (row 3 y z 0 s) }
{
    let held = zone_sum(&case.tables, reserves, z as u64, s);
    let with_short = capped::add_product(held, 1, case.plan.by_year_zone_slice(SPINSHORT, y, z, s));
    let above = capped::join(with_short, lines_into(case, y, z));
    let err = case.tables.single(ERR);
    let below = capped::join(
        flows(&case.plan, Direction::Inward, y, z, s),
        vre_sum(&case.tables, outputs, z as u64, err, s),
    );
    with_constant(
        above,
        below,
        scale,
        spinning_constant(&case.tables, y, z, s),
    )
}

// 4 (21): Σ CapCredit·cap + firmshort + 1000·Σ of the lowest season limit of TL[z2,z] ≥ (1000 + PRM)·peak
pub fn firm(case: &Case, scale: u64, y: usize, z: usize) -> Sides
    requires { (entries_fault (data_of case.now.tables) ≡ fine) × ((y < case.now.plan.counts.years) × (z < case.now.plan.counts.zones)) }
    ensures { result ≡ sides_of (data_of case.now.tables) scale (entry_of case.now.plan) (row 4 y z 0 0) }
{
    let credit = credit_sum(case, y, z as u64);
    let above = capped::add_product(credit, 1, case.plan.by_year_zone(FIRMSHORT, y, z));
    with_constant(
        above,
        capped::zero(),
        scale,
        firm_constant(
            &TestedTables {
                tables: &case.tables,
            },
            y,
            z,
        ),
    )
}
