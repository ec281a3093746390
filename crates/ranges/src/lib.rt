// The range of each entry of the data, both ends included.
// An index is asked below its count: the reason stands beside `Inside` (tables/specs/Layout.antt).
#![tactic(auto)]

ghost use Rattle.std.specs.Prelude.{◌≡◌, ℕ, ◌+◌, ◌-◌, ◌≤◌, ◌<◌, get_or};
ghost use Rattle.sums.specs.Index.{box_of};
ghost use Rattle.model.specs.Counts.{sets};
ghost use Rattle.model.specs.Data.{within, either, ◌to◌, most32, table_count, existing};
ghost use Rattle.tables.specs.Layout.{table_sets};
ghost use Rattle.tables.specs.Lists.{data_of};
ghost use Rattle.ranges.specs.Ranges.{ranged, fixed, by_index, range_of};

use model::TABLE_COUNT;
use tables::lists::Tables;
use tables::names::{
    FUEL, GEN_CAP, LINE_ANNUITY, LINE_LIMIT, MAX_NEW_CAP, MW_PER_LINE, TL, YEAR, ZONE,
};

// No `RangeInclusive` of the library: that is an iterator and no `Copy`, so each read of the fixed table would clone it.
#[derive(Clone, Copy)]
pub struct Range {
    pub least: u32,
    pub most: u32,
}

pub fn in_range(r: Range, x: u32) -> bool
    ensures { result ≡ within (ranged r) x }
{
    (r.least..=r.most).contains(&x)
}

const ANY: Range = Range {
    least: 0,
    most: 0xffff_ffff,
};

const PER_MILLE: Range = Range {
    least: 0,
    most: 1000,
};

const FLAG: Range = Range { least: 0, most: 1 };

const ZERO: Range = Range { least: 0, most: 0 };

// In place of a range that depends on the indices: `range_at` does not read it. No `Option`: each of these tables is in an arm of `range_at`, so that an
// arm for None would never be reached, and would have to be shown so.
const BY_INDEX: Range = ZERO;

// The range of each table whose entries have one range. A table of its own beside that of the index sets: the readers of `tables`, below this crate, need no
// ranges.
const FIXED: [Range; TABLE_COUNT] = [
    PER_MILLE, // 0 return rate
    Range { least: 1, most: 20 }, // 1 weight
    Range {
        least: 0,
        most: 8784,
    }, // 2 duration
    FLAG, // 3 minimum-load day
    BY_INDEX, // 4 zone
    BY_INDEX, // 5 fuel
    FLAG, // 6 kind
    FLAG, // 7 VRE
    BY_INDEX, // 8 GenCap
    BY_INDEX, // 9 year
    BY_INDEX, // 10 MaxNewCap
    PER_MILLE, // 11 OverLoad
    PER_MILLE, // 12 ResOffer
    PER_MILLE, // 13 RampDn
    PER_MILLE, // 14 RampUp
    PER_MILLE, // 15 MinCapFac
    PER_MILLE, // 16 CapCredit
    Range {
        least: 0,
        most: 100000,
    }, // 17 HeatRate
    Range {
        least: 0,
        most: 10000,
    }, // 18 emission
    ANY, // 19 ResCost
    PER_MILLE, // 20 Availability
    PER_MILLE, // 21 Profile
    ANY, // 22 Annuity
    ANY, // 23 FixedOM
    ANY, // 24 GenCost
    ANY, // 25 Demand
    Range {
        least: 0,
        most: 5000,
    }, // 26 EE
    ANY, // 27 SRes
    PER_MILLE, // 28 PRM
    BY_INDEX, // 29 TL
    PER_MILLE, // 30 Loss
    ANY, // 31 zone cap
    ANY, // 32 system cap
    Range {
        least: 0,
        most: 100000,
    }, // 33 Tax
    ANY, // 34 MaxFuel
    ANY, // 35 BuildLimit
    ANY, // 36 VOLL
    ANY, // 37 SurplusPenalty
    ANY, // 38 RESVoLL
    ANY, // 39 SRESVoLL
    PER_MILLE, // 40 Err
    ANY, // 41 MaxCapital
    FLAG, // 42 battery
    PER_MILLE, // 43 efficiency
    ANY, // 44 energy capacity
    BY_INDEX, // 45 line limit
    BY_INDEX, // 46 MW per line
    BY_INDEX, // 47 line annuity
];

// One of six readers of a fixed table: the reason stands beside `table_set` (tables/src/starts.rt).
fn fixed_range(t: usize) -> Range
    requires { t < table_count }
    ensures { result ≡ get_or fixed t by_index }
{
    FIXED[t]
}

// Below a count: the zones and the fuels.
fn below(n: usize) -> Range
    requires { (1 ≤ n) × (n ≤ 8) }
    ensures { ranged result ≡ 0 to n - 1 }
{
    Range {
        least: 0,
        most: (n - 1) as u32,
    }
}

// Any number where it is free, else 0. The flag is a fact of the entry, told by the arm that names its table, and no switch between two ways of work.
fn any_where(free: bool) -> Range
    ensures { ranged result ≡ either free (0 to most32) (0 to 0) }
{
    if free { ANY } else { ZERO }
}

// An existing plant retires in the second year or later, at the latest after the last; a candidate comes in one of the years.
fn plant_year(tables: &Tables, g: usize) -> Range
    requires { g < tables.now.counts.plants }
    ensures { ranged result ≡ either (existing (data_of tables.now) g) (2 to tables.now.counts.years + 1) (1 to tables.now.counts.years) }
{
    let years = tables.counts.years as u32;
    if tables.is_existing(g) {
        return Range {
            least: 2,
            most: years + 1,
        };
    }
    Range {
        least: 1,
        most: years,
    }
}

// The range of table `t` at first index `i` and second index `j`. No range depends on the year or the slice.
pub fn range_at(tables: &Tables, t: usize, i: usize, j: usize) -> Range
    requires { (t < table_count) × (i < (box_of (sets tables.now.counts) (get_or table_sets t 0)).firsts) }
    ensures { (y s : ℕ) → ranged result ≡ range_of t (data_of tables.now) y i j s }
{
    match t {
        ZONE => below(tables.counts.zones),
        FUEL => below(tables.counts.fuels),
        GEN_CAP => any_where(tables.is_existing(i)),
        YEAR => plant_year(tables, i),
        MAX_NEW_CAP => any_where(!tables.is_existing(i)),
        TL | LINE_LIMIT | MW_PER_LINE | LINE_ANNUITY => any_where(i != j),
        _ => fixed_range(t),
    }
}
