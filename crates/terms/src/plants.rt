// Sums over plants and over the slices of a season.
ghost use Rattle.std.specs.Prelude.{ℕ, Bool, ◌≡◌, ◌+◌, ◌*◌, ◌≤◌, ◌<◌, eqb, length, get_or};
ghost use Rattle.capped.specs.Cap.{cap};
ghost use Rattle.sums.specs.Sum.{sum, on};
ghost use Rattle.model.specs.Counts.{slices_of, season_length};
ghost use Rattle.model.specs.Data.{zone, cap_credit, duration, rate, weight, annuity, candidate, is_vre};
ghost use Rattle.model.specs.Columns.{cap as cap_column};
ghost use Rattle.tables.specs.Lists.{data_of, entry_of};

use crate::totals::{exact_total, product_if, total};
use capped::Sum;
use parts::slices::season_length;
use parts::years::part_at;
use tables::lists::{Case, Entries, Tables};
use tables::names::{ANNUITY, CAP, CAP_CREDIT, DURATION, RATE, WEIGHT, ZONE};

// factor·Σ of a year's part over the plants of which a test holds, in slice s.
// The part here and in the two sums below is a bare slice, so its length is asked: document 01 has it as a slice part, handed on to row tests and to posting.
// A loop, and no `total` over `product_if`: that is proved with no proof file, but check as a whole takes a seventh to a quarter longer,
// since the rows of each slice take these sums. A `fold` takes laws of the list of plants, where the loop has an invariant: no plainer.
// The test is handed in at no cost: the static library is the same, byte for byte, as with a loop for each of the two sums.
fn plants_sum<P: Fn(usize) -> bool>(
    tables: &Tables,
    part: &[u32],
    factor: u64,
    s: usize,
    here: P,
) -> Sum
    requires { ((length part.now ≡ tables.now.counts.plants * slices_of tables.now.counts) × (s < slices_of tables.now.counts)) × ((g : ℕ) → g < tables.now.counts.plants → P.pre here g) }
    ensures { (p : ℕ → Bool) → ((g : ℕ) (b : Bool) → g < tables.now.counts.plants → P.post here g b → b ≡ p g)
        → result ≡ cap (sum tables.now.counts.plants (λ g. on (p g) (factor * get_or part.now (g * slices_of tables.now.counts + s) 0))) }
{
    let mut sum = capped::zero();
    for g in 0..tables.counts.plants {
        sum = capped::add_product_if(here(g), sum, factor, part_at(part, tables.counts, g, s));
    }
    sum
}

// 1000·Σ of a year's part over the plants of zone z, in slice s.
pub fn zone_sum(tables: &Tables, part: &[u32], z: u64, s: usize) -> Sum
    requires { (length part.now ≡ tables.now.counts.plants * slices_of tables.now.counts) × (s < slices_of tables.now.counts) }
    ensures { result ≡ cap (sum tables.now.counts.plants (λ g. on (eqb (zone (data_of tables.now) g) z) (1000 * get_or part.now (g * slices_of tables.now.counts + s) 0))) }
{
    plants_sum(tables, part, 1000, s, |g| tables.by_plant(ZONE, g) == z)
}

// Err·Σ gen of VRE over the plants of zone z, in slice s. `&` and no `&&`: the loop of `plants_sum` has one way through.
pub fn vre_sum(tables: &Tables, part: &[u32], z: u64, err: u64, s: usize) -> Sum
    requires { (length part.now ≡ tables.now.counts.plants * slices_of tables.now.counts) × (s < slices_of tables.now.counts) }
    ensures { result ≡ cap (sum tables.now.counts.plants (λ g. on (eqb (zone (data_of tables.now) g) z) (on (is_vre (data_of tables.now) g) (err * get_or part.now (g * slices_of tables.now.counts + s) 0)))) }
{
    plants_sum(tables, part, err, s, |g| {
        (tables.by_plant(ZONE, g) == z) & tables.is_vre(g)
    })
}

// Σ CapCredit·cap over the plants of zone z.
pub fn credit_sum(case: &Case, y: usize, z: u64) -> Sum
    requires { y < case.now.plan.counts.years }
    ensures { result ≡ cap (sum case.now.plan.counts.plants (λ g. on (eqb (zone (data_of case.now.tables) g) z) (cap_credit (data_of case.now.tables) g * entry_of case.now.plan (cap_column y g)))) }
{
    total(case.plan.counts.plants, |g| {
        let here = case.tables.by_plant(ZONE, g) == z;
        let credit = case.tables.by_plant(CAP_CREDIT, g);
        product_if(here, credit, case.plan.by_year_plant(CAP, y, g))
    })
}

// share·Annuity·cap of a candidate in year y, else 0.
fn annuity_of(case: &Case, share: u64, y: usize, g: usize) -> Sum
    requires { (y < case.now.plan.counts.years) × (g < case.now.plan.counts.plants) }
    ensures { result ≡ cap (on (candidate (data_of case.now.tables) g) (share * annuity (data_of case.now.tables) y g * entry_of case.now.plan (cap_column y g))) }
{
    if case.tables.is_existing(g) {
        return capped::zero();
    }
    let annuity = case.tables.by_year_plant(ANNUITY, y, g);
    capped::scale(
        capped::product(share, annuity),
        case.plan.by_year_plant(CAP, y, g),
    )
}

// Σ R·V·Annuity·cap over years and candidates.
pub fn capital_sum(case: &Case) -> Sum
    ensures { result ≡ cap (sum case.now.plan.counts.years (λ y. sum case.now.plan.counts.plants (λ g. on (candidate (data_of case.now.tables) g) (rate (data_of case.now.tables) y * weight (data_of case.now.tables) y * annuity (data_of case.now.tables) y g * entry_of case.now.plan (cap_column y g))))) }
{
    total(case.plan.counts.years, |y| annuity_sum(case, y))
}

// The same over the candidates, in year y.
pub fn annuity_sum(case: &Case, y: usize) -> Sum
    requires { y < case.now.plan.counts.years }
    ensures { result ≡ cap (sum case.now.plan.counts.plants (λ g. on (candidate (data_of case.now.tables) g) (rate (data_of case.now.tables) y * weight (data_of case.now.tables) y * annuity (data_of case.now.tables) y g * entry_of case.now.plan (cap_column y g)))) }
{
    let share = year_weight(&case.tables, y);
    total(case.plan.counts.plants, |g| annuity_of(case, share, y, g))
}

// W = R·V
pub fn year_weight(tables: &Tables, y: usize) -> u64
    requires { y < tables.now.counts.years }
    ensures { result ≡ rate (data_of tables.now) y * weight (data_of tables.now) y }
{
    tables.by_year(RATE, y) * tables.by_year(WEIGHT, y)
}

// Σ Dur over the slices of season q.
pub fn season_hours(tables: &Tables, q: usize) -> u64
    requires { q < tables.now.counts.seasons }
    ensures { (result ≡ sum (season_length tables.now.counts) (λ i. duration (data_of tables.now) (q * season_length tables.now.counts + i))) × (result ≤ 412316860320) }
{
    let p = season_length(tables.counts);
    let from = q * p;
    exact_total(p, |i| tables.by_slice(DURATION, from + i))
}
