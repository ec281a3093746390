// The places at which the tables of a list start.
ghost use Rattle.std.specs.Prelude.{◌≡◌, ℕ, ◌+◌, ◌≤◌, ◌<◌, length, get_or};
ghost use Rattle.sums.specs.Sum.{sum};
ghost use Rattle.sums.specs.Index.{box_of};
ghost use Rattle.model.specs.Counts.{sets};
ghost use Rattle.model.specs.Columns.{column_sets, column_kind_count};
ghost use Rattle.model.specs.Data.{table_count, most32};
ghost use Rattle.tables.specs.Layout.{Counted, Small, table_sets, start_from};

use crate::sets::{
    BY_DAY, BY_LINK, BY_LINK_SEASON, BY_LINK_SLICE, BY_PAIR, BY_PLANT, BY_PLANT_SEASON,
    BY_PLANT_SLICE, BY_SLICE, BY_YEAR, BY_YEAR_FUEL, BY_YEAR_PLANT, BY_YEAR_PLANT_SLICE,
    BY_YEAR_ZONE, BY_YEAR_ZONE_SLICE, BY_ZONE, SINGLE, box_of, members_of,
};
use model::{COLUMN_KIND_COUNT, Counts, TABLE_COUNT};
use sums::Box;

// Where each table of the data starts, and after the last of them where the list ends.
pub const TABLE_STARTS: usize = TABLE_COUNT + 1;

pub type TableStarts = [usize; TABLE_STARTS];

// The same of the kinds of column in a plan.
pub const COLUMN_STARTS: usize = COLUMN_KIND_COUNT + 1;

pub type ColumnStarts = [usize; COLUMN_STARTS];

// The code of each table's index set, in the order of the data list.
const TABLE_SETS: [usize; TABLE_COUNT] = [
    BY_YEAR, // 0 return rate
    BY_YEAR, // 1 weight
    BY_SLICE, // 2 duration
    BY_DAY, // 3 minimum-load day
    BY_PLANT, // 4 zone
    BY_PLANT, // 5 fuel
    BY_PLANT, // 6 kind
    BY_PLANT, // 7 VRE
    BY_PLANT, // 8 GenCap
    BY_PLANT, // 9 year
    BY_PLANT, // 10 MaxNewCap
    BY_PLANT, // 11 OverLoad
    BY_PLANT, // 12 ResOffer
    BY_PLANT, // 13 RampDn
    BY_PLANT, // 14 RampUp
    BY_PLANT, // 15 MinCapFac
    BY_PLANT, // 16 CapCredit
    BY_PLANT, // 17 HeatRate
    BY_PLANT, // 18 emission
    BY_PLANT, // 19 ResCost
    BY_PLANT_SEASON, // 20 Availability
    BY_PLANT_SLICE, // 21 Profile
    BY_YEAR_PLANT, // 22 Annuity
    BY_YEAR_PLANT, // 23 FixedOM
    BY_YEAR_PLANT, // 24 GenCost
    BY_YEAR_ZONE_SLICE, // 25 Demand
    BY_YEAR_ZONE, // 26 EE
    BY_YEAR_ZONE, // 27 SRes
    BY_ZONE, // 28 PRM
    BY_LINK_SEASON, // 29 TL
    BY_LINK, // 30 Loss
    BY_YEAR_ZONE, // 31 zone cap
    BY_YEAR, // 32 system cap
    BY_YEAR, // 33 Tax
    BY_YEAR_FUEL, // 34 MaxFuel
    BY_YEAR, // 35 BuildLimit
    SINGLE, // 36 VOLL
    SINGLE, // 37 SurplusPenalty
    SINGLE, // 38 RESVoLL
    SINGLE, // 39 SRESVoLL
    SINGLE, // 40 Err
    SINGLE, // 41 MaxCapital
    BY_PLANT, // 42 battery
    BY_PLANT, // 43 efficiency
    BY_PLANT, // 44 energy capacity
    BY_PAIR, // 45 line limit
    BY_PAIR, // 46 MW per line
    BY_PAIR, // 47 line annuity
];

// The code of each kind of column's index set, in the order of the plan.
const COLUMN_SETS: [usize; COLUMN_KIND_COUNT] = [
    BY_YEAR_PLANT, // 0 cap
    BY_YEAR_PLANT, // 1 build
    BY_YEAR_PLANT, // 2 retire
    BY_YEAR_PLANT_SLICE, // 3 gen
    BY_YEAR_PLANT_SLICE, // 4 reserve
    BY_LINK_SLICE, // 5 trans
    BY_YEAR_ZONE_SLICE, // 6 unmet
    BY_YEAR_ZONE_SLICE, // 7 surplus
    BY_YEAR_ZONE_SLICE, // 8 spinshort
    BY_YEAR_ZONE, // 9 firmshort
    BY_YEAR_PLANT_SLICE, // 10 charge
    BY_YEAR_PLANT_SLICE, // 11 level
    BY_LINK, // 12 built
    BY_LINK, // 13 total
];

// Two readers of two fixed tables, as `family_at` (sets.rt), `fixed_range` (ranges), `has_constant` (constants) and `most_count` (data_tests) read one each.
// Each reads one table of the definitions, below that table's own bound; one for all would be handed the fixed table, which is private to its file.
// The same of the two boxes and starts below.

// The code of the index set of a table of the data.
pub fn table_set(t: usize) -> usize
    requires { t < table_count }
    ensures { result ≡ get_or table_sets t 0 }
{
    TABLE_SETS[t]
}

// The code of the index set of a kind of column.
pub fn column_set(k: usize) -> usize
    requires { k < column_kind_count }
    ensures { result ≡ get_or column_sets k 0 }
{
    COLUMN_SETS[k]
}

// `Counted` is asked here and below: the reason stands beside it (specs/Layout.antt).

// The index set of a table of the data.
pub fn table_box(c: Counts, t: usize) -> Box
    requires { Counted c × (t < table_count) }
    ensures { (result ≡ box_of (sets c) (get_or table_sets t 0)) × Small result }
{
    box_of(c, table_set(t))
}

// The index set of a kind of column.
pub fn column_box(c: Counts, k: usize) -> Box
    requires { Counted c × (k < column_kind_count) }
    ensures { (result ≡ box_of (sets c) (get_or column_sets k 0)) × Small result }
{
    box_of(c, column_set(k))
}

// Where each of n parts of a list starts, and after the last of them where the list ends: the parts follow one another from the first place on.
// A loop: each step of a running sum is kept. `scan` has no heap to be collected on, and `array::from_fn` goes on to N, so that each place would be tested.
pub fn starts_of<const N: usize, F: Fn(usize) -> usize>(
    n: usize,
    from: usize,
    size: F,
) -> [usize; N]
    requires room { (n < N) × ((n ≤ most32) × (from ≤ most32)) }
    requires callable { (k : ℕ) → k < n → F.pre size k }
    requires small { (k r : ℕ) → k < n → F.post size k r → r ≤ most32 }
    ensures length { length result ≡ N }
    ensures value { (f : ℕ → ℕ) → ((k r : ℕ) → k < n → F.post size k r → r ≡ f k) → (k : ℕ) → k ≤ n → get_or result k 0 ≡ from + sum k f }
{
    let mut starts = [0; N];
    let mut next = from;
    starts[0] = next;
    for k in 0..n {
        next += size(k);
        starts[k + 1] = next;
    }
    starts
}

// Where each of the kinds starts that a list of index sets names, and after the last of them where the list ends.
fn starts_from<const N: usize>(c: Counts, kinds: &[usize], from: usize) -> [usize; N]
    requires { Counted c × ((length kinds.now < N) × ((length kinds.now ≤ table_count) × (from ≤ 7))) }
    ensures { (length result ≡ N) × ((k : ℕ) → k ≤ length kinds.now → get_or result k 0 ≡ start_from c kinds.now from k) }
{
    starts_of(kinds.len(), from, |k| members_of(box_of(c, kinds[k])))
}

// The starts of the data list's tables; the counts stand before them. One function serves this and `column_starts`; what is left is whose index sets they
// are, and from which place.
pub fn table_starts(c: Counts) -> TableStarts
    requires { Counted c }
    ensures { (length result ≡ table_count + 1) × ((t : ℕ) → t ≤ table_count → get_or result t 0 ≡ start_from c table_sets 7 t) }
{
    let kinds = TABLE_SETS;
    starts_from(c, &kinds, 7)
}

// The starts of the plan's tables.
pub fn column_starts(c: Counts) -> ColumnStarts
    requires { Counted c }
    ensures { (length result ≡ column_kind_count + 1) × ((k : ℕ) → k ≤ column_kind_count → get_or result k 0 ≡ start_from c column_sets 0 k) }
{
    let kinds = COLUMN_SETS;
    starts_from(c, &kinds, 0)
}
