// The plants' energy Σ Dur·gen by year and season, summed once and used by families 10, 17, 19 and 20.
ghost use Rattle.std.specs.Prelude.{ℕ, Bool, ◌≡◌, ◌&&◌, ◌+◌, ◌*◌, ◌<◌, eqb, length, get_or};
ghost use Rattle.capped.specs.Cap.{cap, both, Sum};
ghost use Rattle.model.specs.Counts.{slices_of, [g]};
ghost use Rattle.model.specs.Data.{zone, fuel, duration, heat_rate, emission};
ghost use Rattle.model.specs.Families.{season_sum};
ghost use Rattle.tables.specs.Layout.{Counted, table_sets};
ghost use Rattle.energy.specs.Energies.{energy_place, energy_at, all_if, all_of, year_energy, energy_count};
ghost use Rattle.tables.specs.Lists.{data_of};

use capped::{Kept, Sum};
use model::Counts;
use parts::slices::season_length;
use parts::years::part_at;
use tables::lists::Tables;
use tables::names::{DURATION, EMISSION, FUEL, HEAT_RATE, ZONE};
use terms::totals::total;

// A plant's energy in every year and season, as many of each as there may be: 10 years, 32 plants and 4 seasons. The memory is fixed: there is no heap.
pub const ENERGY_COUNT: usize = 1280;

// Each is kept in one word: as sums they would take twice the stack, and a refused call on a small system more than a third longer.
pub type EnergyTable = [Kept; ENERGY_COUNT];

// Σ Dur·gen of a plant over the slices of season q, from the year's part of gen.
// The part is a bare slice, so its length is asked: document 01 has a year's part as a slice part, handed on to row tests and to posting.
pub fn season_energy(tables: &Tables, outputs: &[u32], g: usize, q: usize) -> Sum
    requires { (length outputs.now ≡ tables.now.counts.plants * slices_of tables.now.counts) × ((g < tables.now.counts.plants) × (q < tables.now.counts.seasons)) }
    ensures { result ≡ cap (season_sum (data_of tables.now) q (λ s. duration (data_of tables.now) s * get_or outputs.now (g * slices_of tables.now.counts + s) 0)) }
{
    let p = season_length(tables.counts);
    let from = q * p;
    total(p, |i| {
        let hours = tables.by_slice(DURATION, from + i);
        capped::product(hours, part_at(outputs, tables.counts, g, from + i))
    })
}

// Where the energy of a year, plant and season stands. `Counted` is asked: the reason stands beside it (tables/specs/Layout.antt).
pub fn energy_place(c: Counts, y: usize, g: usize, q: usize) -> usize
    requires { Counted c × ((y < c.years) × ((g < c.plants) × (q < c.seasons))) }
    ensures { (result ≡ energy_place c y g q) × (result < energy_count) }
{
    (y * c.plants + g) * c.seasons + q
}

// The energy of a year, plant and season. `Counted` is asked as above.
// Out of line: few rows read an energy, and where it is a part of the body that all rows share, check of a full-sized plan takes a quarter longer.
#[inline(never)]
pub fn energy_at(energy: &EnergyTable, c: Counts, y: usize, g: usize, q: usize) -> Sum
    requires { Counted c × ((y < c.years) × ((g < c.plants) × (q < c.seasons))) }
    ensures { result ≡ energy_at c energy.now y g q }
{
    capped::sum_kept(energy[energy_place(c, y, g, q)])
}

// The sum of those of n sums that a test passes; `add` adds the i-th. They need not be capped sums of numbers, as `total` asks: a caller lends the table of energies.
// A loop: of a closure that answered the i-th sum, `filter`, `map` and `fold`, or one `fold`, were proved too, but longer: the closure that calls the test needs a `requires` of its own.
fn sum_of<P: Fn(usize) -> bool, F: Fn(Sum, usize) -> Sum>(n: usize, test: P, add: F) -> Sum
    requires { (i : ℕ) → i < n → P.pre test i × ((s : Sum) → F.pre add s i) }
    ensures { (p : ℕ → Bool) (f : ℕ → Sum) → ((i : ℕ) (b : Bool) → i < n → P.post test i b → b ≡ p i) → ((i : ℕ) (s r : Sum) → i < n → F.post add s i r → r ≡ both s (f i))
        → result ≡ all_if n p f }
{
    let mut sum = capped::zero();
    for i in 0..n {
        if test(i) {
            sum = add(sum, i);
        }
    }
    sum
}

// `tables` and `energy` stand side by side, here and below: these functions promise their sums of any table of energies, so that no fact ties it to the data,
// and a struct without one would be made at each call.

// factor·Σ of a plant's energies over the seasons of year y.
fn year_energy(tables: &Tables, energy: &EnergyTable, factor: u64, y: usize, g: usize) -> Sum
    requires { (y < tables.now.counts.years) × (g < tables.now.counts.plants) }
    ensures { result ≡ year_energy tables.now.counts energy.now factor y g }
{
    sum_of(
        tables.counts.seasons,
        |_| true,
        |sum, q| capped::add_multiple(sum, energy_at(energy, tables.counts, y, g, q), factor),
    )
}

// Σ Dur·factor·gen in year y over the plants of which a test holds; the factor is the plant's number in table `t`.
fn energy_of<P: Fn(usize) -> bool>(
    tables: &Tables,
    energy: &EnergyTable,
    t: usize,
    y: usize,
    here: P,
) -> Sum
    requires { ((t < length table_sets) × (get_or table_sets t 0 ≡ [g])) × ((y < tables.now.counts.years) × ((g : ℕ) → g < tables.now.counts.plants → P.pre here g)) }
    ensures { (p : ℕ → Bool) → ((g : ℕ) (b : Bool) → g < tables.now.counts.plants → P.post here g b → b ≡ p g)
        → result ≡ all_if tables.now.counts.plants p (λ g. year_energy tables.now.counts energy.now ((data_of tables.now).entry t 0 g 0 0) y g) }
{
    sum_of(
        tables.counts.plants,
        here,
        |sum, g| capped::join(
            sum,
            year_energy(tables, energy, tables.by_plant(t, g), y, g),
        ),
    )
}

// Σ Dur·HeatRate·gen over the plants of zone z and fuel f, in year y.
pub fn burned(tables: &Tables, energy: &EnergyTable, y: usize, z: u64, f: u64) -> Sum
    requires { y < tables.now.counts.years }
    ensures { result ≡ all_if tables.now.counts.plants (λ g. eqb (zone (data_of tables.now) g) z && eqb (fuel (data_of tables.now) g) f) (λ g. year_energy tables.now.counts energy.now (heat_rate (data_of tables.now) g) y g) }
{
    energy_of(tables, energy, HEAT_RATE, y, |g| {
        tables.by_plant(ZONE, g) == z && tables.by_plant(FUEL, g) == f
    })
}

// Σ Dur·E·gen over the plants of zone z, in year y.
pub fn emitted_in(tables: &Tables, energy: &EnergyTable, y: usize, z: u64) -> Sum
    requires { y < tables.now.counts.years }
    ensures { result ≡ all_if tables.now.counts.plants (λ g. eqb (zone (data_of tables.now) g) z) (λ g. year_energy tables.now.counts energy.now (emission (data_of tables.now) g) y g) }
{
    energy_of(
        tables,
        energy,
        EMISSION,
        y,
        |g| tables.by_plant(ZONE, g) == z,
    )
}

// Σ Dur·E·gen over all plants, in year y.
pub fn emitted(tables: &Tables, energy: &EnergyTable, y: usize) -> Sum
    requires { y < tables.now.counts.years }
    ensures { result ≡ all_of tables.now.counts.plants (λ g. year_energy tables.now.counts energy.now (emission (data_of tables.now) g) y g) }
{
    energy_of(tables, energy, EMISSION, y, |_| true)
}
