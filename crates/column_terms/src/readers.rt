// What the columns read in common: a plant's zone and fuel, whether an hour has one before it in its day, and the coefficients that are worked out.
// An index is asked below its count: the reason stands beside `Inside` (tables/specs/Layout.antt).
ghost use Rattle.std.specs.Prelude.{◌≡◌, ◌*◌, ◌-◌, ◌%◌, ◌<◌, ltb};
ghost use Rattle.model.specs.Counts.{slices_of};
ghost use Rattle.model.specs.Data.{zone, fuel, duration, availability, rate, weight, annuity, loss};
ghost use Rattle.model.specs.Families.{season_sum};
ghost use Rattle.tables.specs.Layout.{Counted};
ghost use Rattle.column_terms.specs.Readers.{PlantTable};
ghost use Rattle.tables.specs.Lists.{data_of};

use model::Counts;
use parts::slices::first_hour;
use tables::lists::{Entries, Tables, TestedTables};
use tables::names::{ANNUITY, AVAILABILITY, DURATION, FUEL, LOSS, ZONE};
use terms::plants::{season_hours, year_weight};

// A plant's zone and its fuel are two readers: each result is below a count of its own, and one for both would ask for the table and the count.
pub fn zone_of(tested: &TestedTables, g: usize) -> usize
    requires { g < tested.now.tables.now.counts.plants }
    ensures { (result ≡ zone (data_of tested.now.tables.now) g) × (result < tested.now.tables.now.counts.zones) }
{
    tested.tables.by_plant(ZONE, g) as usize
}

pub fn fuel_of(tested: &TestedTables, g: usize) -> usize
    requires { g < tested.now.tables.now.counts.plants }
    ensures { (result ≡ fuel (data_of tested.now.tables.now) g) × (result < tested.now.tables.now.counts.fuels) }
{
    tested.tables.by_plant(FUEL, g) as usize
}

// t > 0. `Counted` is asked: the reason stands beside it (tables/specs/Layout.antt).
pub fn after_first_hour(c: Counts, s: usize) -> bool
    requires { Counted c }
    ensures { result ≡ ltb 0 (s % c.hours) }
{
    !first_hour(c, s)
}

// Availability·Σ Dur of season q, family 10.
pub fn available_hours(tested: &TestedTables, g: usize, q: usize) -> u64
    requires { (g < tested.now.tables.now.counts.plants) × (q < tested.now.tables.now.counts.seasons) }
    ensures { result ≡ availability (data_of tested.now.tables.now) g q * season_sum (data_of tested.now.tables.now) q (λ s. duration (data_of tested.now.tables.now) s) }
{
    tested.tables.by_plant_season(AVAILABILITY, g, q) * season_hours(tested.tables, q)
}

// R·V·Annuity, family 18.
pub fn weighted_annuity(tested: &TestedTables, y: usize, g: usize) -> u64
    requires { (y < tested.now.tables.now.counts.years) × (g < tested.now.tables.now.counts.plants) }
    ensures { result ≡ rate (data_of tested.now.tables.now) y * weight (data_of tested.now.tables.now) y * annuity (data_of tested.now.tables.now) y g }
{
    year_weight(tested.tables, y) * tested.tables.by_year_plant(ANNUITY, y, g)
}

// Thousandths that the link from z to w delivers, family 1.
pub fn delivered(tested: &TestedTables, y: usize, z: usize, w: usize) -> u64
    requires { (y < tested.now.tables.now.counts.years) × ((z < tested.now.tables.now.counts.zones) × (w < tested.now.tables.now.counts.zones)) }
    ensures { result ≡ 1000 - loss (data_of tested.now.tables.now) y z w }
{
    1000 - tested.tables.by_link(LOSS, y, z, w)
}

// Dur times a number of the plant (HeatRate or E), families 17, 19 and 20.
pub fn hourly(tables: &Tables, t: usize, g: usize, s: usize) -> u64
    requires { PlantTable t × ((g < tables.now.counts.plants) × (s < slices_of tables.now.counts)) }
    ensures { result ≡ duration (data_of tables.now) s * (data_of tables.now).entry t 0 g 0 0 }
{
    tables.by_slice(DURATION, s) * tables.by_plant(t, g)
}
