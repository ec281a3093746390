// What the rows of one year work on.
// An index is asked below its count: the reason stands beside `Inside` (tables/specs/Layout.antt).
ghost use Rattle.std.specs.Prelude.{◌≡◌, ◌<◌};
ghost use Rattle.sums.specs.Span.{fine};
ghost use Rattle.model.specs.Tests.{entries_fault};
ghost use Rattle.tables.specs.Lists.{data_of, entry_of};
ghost use Rattle.parts.specs.Years.{YearPart, gen_kind, reserve_kind, charge_kind, level_kind};
ghost use Rattle.energy.specs.Energies.{Energies};

use energy::totals::EnergyTable;
use parts::years::plan_part;
use tables::lists::Case;
use tables::names::{CHARGE, GEN, LEVEL, RESERVE};

// A case whose data passed refusal 3, with the plants' energies: what the rows of all years work on.
#[derive(Clone, Copy)]
pub struct TestedCase<'a> {
    pub case: &'a Case<'a>,
    pub energy: &'a EnergyTable,
    pub ghost tested: { entries_fault (data_of case.now.tables) ≡ fine },
    pub ghost energies: { Energies (data_of case.now.tables) (entry_of case.now.plan) energy.now case.now.plan.counts },
}

// A year of it, with the year's parts of gen, reserve, charge and level.
#[derive(Clone, Copy)]
pub struct Year<'a> {
    pub tested: TestedCase<'a>,
    pub year: usize,
    pub outputs: &'a [u32],
    pub reserves: &'a [u32],
    pub charges: &'a [u32],
    pub levels: &'a [u32],
    pub ghost generated: { YearPart tested.case.now.plan.list.now outputs.now tested.case.now.plan.counts gen_kind year },
    pub ghost reserved: { YearPart tested.case.now.plan.list.now reserves.now tested.case.now.plan.counts reserve_kind year },
    pub ghost charged: { YearPart tested.case.now.plan.list.now charges.now tested.case.now.plan.counts charge_kind year },
    pub ghost held: { YearPart tested.case.now.plan.list.now levels.now tested.case.now.plan.counts level_kind year },
}

// The year with its parts of the plan.
pub fn year_of<'a>(tested: &TestedCase<'a>, y: usize) -> Year<'a>
    requires { y < tested.now.case.now.plan.counts.years }
    ensures { (result.tested.case.now ≡ tested.now.case.now) × (result.year ≡ y) }
{
    let plan = &tested.case.plan;
    Year {
        tested: *tested,
        year: y,
        outputs: plan_part(plan, GEN, y),
        reserves: plan_part(plan, RESERVE, y),
        charges: plan_part(plan, CHARGE, y),
        levels: plan_part(plan, LEVEL, y),
    }
}
