// The gap of a certificate, cost + N·Σ m·k, and refusal 13.
// A place is asked inside its index set (`Member`): the reason stands beside `Inside` (tables/specs/Layout.antt).
#![tactic(auto)]

ghost use Rattle.std.specs.Prelude.{◌≡◌, ◌≤◌, ◌<◌};
ghost use Rattle.capped.specs.Cap.{limit, cap};
ghost use Rattle.compared.specs.Compared.{net_of};
ghost use Rattle.sums.specs.Index.{index_of, Member};
ghost use Rattle.model.specs.Families.{row_boxes, family_count};
ghost use Rattle.model.specs.Tests.{gap_fault, gap};
ghost use Rattle.model.specs.Calls.{certificate};
ghost use Rattle.gap.specs.Signs.{with_row, with_term, walked_box, terms_of, settled};
ghost use Rattle.tables.specs.Lists.{data_of};

use capped::Sum;
use column_terms::Pair;
use compared::NoBalance;
use constants::families::has_constant;
use constants::{Constant, netted};
use duals::{Multiplier, Multipliers, Pricing};
use model::{Certificate, FAMILY_COUNT, Refusal};
use row_constants::constant_at;
use sums::{Box, Place};
use tables::sets::{box_of, family_at};

// A row's term m·k added on the side of its sign. The constant is one number, so its two parts are brought together first.
fn with_row(t: Pair, m: Multiplier, k: Constant) -> Pair
    ensures { result ≡ with_row t m k }
{
    let n = netted(k);
    t.add(n.adds, m).take(n.takes, m)
}

// The term of row p added.
fn add_term(pricing: &Pricing, p: Place, t: Pair) -> Pair
    requires { Member (row_boxes pricing.now.multipliers.counts) (index_of p) }
    ensures { result ≡ with_term (data_of pricing.now.tested.tables.now) pricing.now.multipliers.list.now t (index_of p) }
{
    let m = pricing.multipliers.at(p);
    with_row(t, m, constant_at(&pricing.tested, p))
}

// The index set of a family; of one whose rows have no constant nothing is walked.
fn walked_box(multipliers: &Multipliers, k: usize) -> Box
    requires { k < family_count }
    ensures { result ≡ walked_box multipliers.now.counts k }
{
    if has_constant(k) {
        return box_of(multipliers.counts, family_at(k).set);
    }
    Box {
        years: 0,
        firsts: 0,
        seconds: 0,
        slices: 0,
    }
}

// The terms m·k of all rows: those above zero and those below, summed apart. The nest of loops is the index set of a family written out: `test_rows` and
// `test_columns` find a year's parts and a unit's price outside the slices, so an iterator of all places would serve this walk alone.
pub fn constant_terms(pricing: &Pricing) -> Pair
    ensures { result ≡ terms_of (data_of pricing.now.tested.tables.now) pricing.now.multipliers.list.now }
{
    let mut t = Pair::none();
    for k in 0..FAMILY_COUNT {
        let b = walked_box(&pricing.multipliers, k);
        for y in 0..b.years {
            for i in 0..b.firsts {
                for j in 0..b.seconds {
                    for s in 0..b.slices {
                        let row = Place {
                            kind: k,
                            year: y,
                            first: i,
                            second: j,
                            slice: s,
                        };
                        t = add_term(pricing, row, t);
                    }
                }
            }
        }
    }
    t
}

// The certificate of a cost, with N·m·k summed by sign: cost and gap, or refusal 13.
#[tactic(auto, unfolding(crate::specs::Signs::settled))]
fn certificate_of(cost: u64, up: Sum, down: Sum) -> Result<Certificate, Refusal>
    ensures { result ≡ settled cost (net_of (cap cost) up down) }
{
    match compared::net(capped::of(cost), up, down) {
        Ok(gap) => Ok(Certificate { cost, gap }),
        // Never reached where the plan passed: it is a rival of its own, so the gap is not below zero (`WholeGap`).
        Err(NoBalance::BelowZero) => Ok(Certificate { cost, gap: 0 }),
        Err(NoBalance::Unsure) => Err(Refusal::GapOffScale),
    }
}

// The gap beside a cost that passed refusal 8, or refusal 13. The cost is in neither sum.
pub fn gap_of(pricing: &Pricing, scale: u64, cost: u64) -> Result<Certificate, Refusal>
    requires { cost ≤ limit }
    ensures { result ≡ certificate (gap_fault (data_of pricing.now.tested.tables.now) pricing.now.multipliers.list.now scale) cost (gap (data_of pricing.now.tested.tables.now) pricing.now.multipliers.list.now scale cost) }
{
    let terms = constant_terms(pricing);
    certificate_of(
        cost,
        capped::scale(terms.up, scale),
        capped::scale(terms.down, scale),
    )
}
