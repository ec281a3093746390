// What flows over the links of a zone, and what its lines may carry: sums over the other zones.
// An index is asked below its count: the reason stands beside `Inside` (tables/specs/Layout.antt).
#![tactic(auto)]

ghost use Rattle.std.specs.Prelude.{◌≡◌, not, ◌*◌, ◌-◌, ◌<◌, eqb};
ghost use Rattle.capped.specs.Cap.{cap};
ghost use Rattle.sums.specs.Sum.{sum, on};
ghost use Rattle.model.specs.Counts.{slices_of};
ghost use Rattle.model.specs.Data.{loss, mw_per_line};
ghost use Rattle.model.specs.Columns.{trans, total_lines};
ghost use Rattle.links.specs.Links.{link};
ghost use Rattle.tables.specs.Lists.{data_of, entry_of};

use capped::Sum;
use tables::lists::{Case, Entries, Plan};
use tables::names::{LOSS, MW_PER_LINE, TOTAL_LINES, TRANS};
use terms::totals::{product_if, total};

// Σ (1000 − Loss[u,z])·trans[u,z] over the other zones u: what zone z receives.
pub fn received(case: &Case, y: usize, z: usize, s: usize) -> Sum
    requires { (y < case.now.plan.counts.years) × ((z < case.now.plan.counts.zones) × (s < slices_of case.now.plan.counts)) }
    ensures { result ≡ cap (sum case.now.plan.counts.zones (λ u. on (not (eqb u z)) ((1000 - loss (data_of case.now.tables) y u z) * entry_of case.now.plan (trans y u z s)))) }
{
    total(case.plan.counts.zones, |u| {
        // thousandths that the link delivers
        let kept = 1000u64.saturating_sub(case.tables.by_link(LOSS, y, u, z));
        product_if(u != z, kept, case.plan.by_link_slice(TRANS, y, u, z, s))
    })
}

// A link's direction, seen from the zone whose links are summed.
#[derive(Clone, Copy, Debug, PartialEq, Eq)]
pub enum Direction {
    Inward,
    Outward,
}

// 1000·Σ trans over the links of zone z with the other zones u: trans[u,z] inward, trans[z,u] outward.
pub fn flows(plan: &Plan, direction: Direction, y: usize, z: usize, s: usize) -> Sum
    requires { (y < plan.now.counts.years) × ((z < plan.now.counts.zones) × (s < slices_of plan.now.counts)) }
    ensures { result ≡ cap (sum plan.now.counts.zones (λ u. on (not (eqb u z)) (1000 * entry_of plan.now (link direction y z u s)))) }
{
    total(plan.counts.zones, |u| {
        product_if(u != z, 1000, flow_between(plan, direction, y, z, u, s))
    })
}

// trans[u,z] inward, trans[z,u] outward.
fn flow_between(plan: &Plan, direction: Direction, y: usize, z: usize, u: usize, s: usize) -> u64
    requires { (y < plan.now.counts.years) × ((z < plan.now.counts.zones) × ((u < plan.now.counts.zones) × (s < slices_of plan.now.counts))) }
    ensures { result ≡ entry_of plan.now (link direction y z u s) }
{
    match direction {
        Direction::Inward => plan.by_link_slice(TRANS, y, u, z, s),
        Direction::Outward => plan.by_link_slice(TRANS, y, z, u, s),
    }
}

// 1000·Σ MW per line[u,z]·total[u,z] over the other zones u: what the lines built into zone z may carry.
pub fn lines_into(case: &Case, y: usize, z: usize) -> Sum
    requires { (y < case.now.plan.counts.years) × (z < case.now.plan.counts.zones) }
    ensures { result ≡ cap (sum case.now.plan.counts.zones (λ u. on (not (eqb u z)) (1000 * mw_per_line (data_of case.now.tables) u z * entry_of case.now.plan (total_lines y u z)))) }
{
    total(case.plan.counts.zones, |u| {
        let power = case.tables.by_pair(MW_PER_LINE, u, z);
        product_if(
            u != z,
            1000 * power,
            case.plan.by_link(TOTAL_LINES, y, u, z),
        )
    })
}
