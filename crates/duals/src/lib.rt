// The multipliers that a caller hands to certify: the two parts of each, a row's multiplier by family and index, and refusals 9 and 10.
// Signed numbers are met in `From<i64> for Multiplier` and `multiplier_in` only.
// A place is asked inside its index set (`Member`): the reason stands beside `Inside` (tables/specs/Layout.antt).
#![tactic(auto)]

ghost use Rattle.std.specs.Prelude.{◌≡◌, ◌&&◌, ℕ, ◌+◌, ◌≤◌, ◌<◌, leb, pos, length, get_or};
ghost use Rattle.sums.specs.Sum.{on};
ghost use Rattle.sums.specs.Span.{or_else};
ghost use Rattle.sums.specs.Index.{index_of, start, count, number, Member};
ghost use Rattle.model.specs.Data.{Data};
ghost use Rattle.model.specs.Families.{family_of, row_boxes, family_count};
ghost use Rattle.model.specs.Tests.{most_multiplier, multiplier_count_fault, multipliers_fault};
ghost use Rattle.model.specs.Calls.{outcome};
ghost use Rattle.tables.specs.Layout.{Counted};
ghost use Rattle.duals.specs.Multipliers.{multiplier_of, Shaped, RowsAt};

use model::{Counts, FAMILY_COUNT, Refusal, Shape};
use sums::Place;
use tables::families::{
    AVAILABLE, BALANCE, BATTERY_LEVEL, CAPITAL, CHARGE_FALL, CHARGE_LIMIT, CHARGE_RISE, FIRM,
    FIXED, FUEL_USE, LEVEL_LIMIT, LIFE, LINE_BALANCE, LOADING, MINIMUM_LOAD, NEW_CAPACITY,
    NEW_LINES, OFFER, PROFILED, RAMP_DOWN, RAMP_UPWARD, SPINNING, STOCK, SYSTEM_EMISSION, TRANSFER,
    YEARLY_BUILD, ZONE_EMISSION,
};
use tables::lists::TestedTables;
use tables::sets::{
    BY_LINK, BY_LINK_SLICE, BY_PAIR, BY_PLANT, BY_YEAR, BY_YEAR_PLANT, BY_YEAR_PLANT_SEASON,
    BY_YEAR_PLANT_SLICE, BY_YEAR_ZONE, BY_YEAR_ZONE_FUEL, BY_YEAR_ZONE_SLICE, SINGLE, family_at,
    inside_of, shape_of,
};
use tables::starts::starts_of;

// The largest size of a multiplier, 2^40.
const MOST_MULTIPLIER: u64 = 0x100_0000_0000;

// The size of a multiplier above zero, and its size below zero; one of the two is 0. It is no `Pair` (column_terms), though its fields have the same names:
// these are the parts of one signed number, and those are two capped sums. Nor is it a `Constant` (constants): of that both parts may be above 0,
// until `netted`.
#[derive(Clone, Copy)]
pub struct Multiplier {
    pub up: u64,
    pub down: u64,
}

impl Multiplier {
    // Of the same size, with the other sign.
    pub fn negated(self) -> Multiplier
        ensures { (result.up ≡ self.down) × (result.down ≡ self.up) }
    {
        Multiplier {
            up: self.down,
            down: self.up,
        }
    }
}

// The two parts of a signed number.
impl From<i64> for Multiplier {
    ghost from_gives = { λ m r. r ≡ multiplier_of m };

    #[tactic(auto, using(crate::proofs::Laws::below_zero, crate::proofs::Laws::not_below_zero))]
    fn from(m: i64) -> Multiplier {
        let size = m.unsigned_abs();
        if m < 0 {
            return Multiplier { up: 0, down: size };
        }
        Multiplier { up: size, down: 0 }
    }
}

// The multiplier of a row's number.
pub fn multiplier_in(ms: &[i64], row: usize) -> Multiplier
    requires { row < length ms.now }
    ensures { result ≡ multiplier_of (get_or ms.now row (pos 0)) }
{
    Multiplier::from(ms[row])
}

// The row number at which each family starts, and after the last of them the number of rows.
pub const ROW_STARTS: usize = FAMILY_COUNT + 1;

pub type RowStarts = [usize; ROW_STARTS];

// Made of the sizes, one after the other.
pub fn row_starts(shape: Shape) -> RowStarts
    requires { Shaped shape }
    ensures { (length result ≡ family_count + 1) × ((k : ℕ) → k ≤ family_count → get_or result k 0 ≡ start (row_boxes shape.counts) k) }
{
    starts_of(FAMILY_COUNT, 0, |k| shape.sizes[k])
}

// The code of a family's index set once more, by match: where the family is a constant, inlining sees through it to the code, and so to the index set.
// It does not see through a read of the table of families: docs/BENCHMARKS.md has what that costs certify.
#[tactic(auto, unfolding(model::specs::Families::family_of), using(tables::proofs::Laws::last_arm))]
fn set_of(k: usize) -> usize
    requires { k < family_count }
    ensures { result ≡ (family_of k).set }
{
    match k {
        BALANCE => BY_YEAR_ZONE_SLICE,
        TRANSFER => BY_LINK_SLICE,
        SPINNING => BY_YEAR_ZONE_SLICE,
        FIRM => BY_YEAR_ZONE,
        LOADING => BY_YEAR_PLANT_SLICE,
        OFFER => BY_YEAR_PLANT_SLICE,
        RAMP_DOWN => BY_YEAR_PLANT_SLICE,
        RAMP_UPWARD => BY_YEAR_PLANT_SLICE,
        MINIMUM_LOAD => BY_YEAR_PLANT_SLICE,
        AVAILABLE => BY_YEAR_PLANT_SEASON,
        PROFILED => BY_YEAR_PLANT_SLICE,
        STOCK => BY_YEAR_PLANT,
        LIFE => BY_YEAR_PLANT,
        FIXED => BY_YEAR_PLANT,
        NEW_CAPACITY => BY_PLANT,
        YEARLY_BUILD => BY_YEAR_PLANT,
        FUEL_USE => BY_YEAR_ZONE_FUEL,
        CAPITAL => SINGLE,
        ZONE_EMISSION => BY_YEAR_ZONE,
        SYSTEM_EMISSION => BY_YEAR,
        BATTERY_LEVEL => BY_YEAR_PLANT_SLICE,
        CHARGE_LIMIT => BY_YEAR_PLANT_SLICE,
        CHARGE_RISE => BY_YEAR_PLANT_SLICE,
        CHARGE_FALL => BY_YEAR_PLANT_SLICE,
        LEVEL_LIMIT => BY_YEAR_PLANT_SLICE,
        LINE_BALANCE => BY_LINK,
        NEW_LINES => BY_PAIR,
        // LINES_BOTH_WAYS
        _ => BY_LINK,
    }
}

// A multiplier for every row, with the counts and the starts of the families. A struct beside `Tables` and `Plan`: the reason stands there
// (tables/src/lists.rt).
#[derive(Drop)]
pub struct Multipliers<'a> {
    pub list: &'a [i64],
    pub counts: Counts,
    pub starts: RowStarts,
    pub ghost counted: { Counted counts },
    pub ghost laid_out: { RowsAt list.now starts counts },
}

impl Multipliers<'_> {
    // The multiplier of row p. With its family a constant, inlining leaves a few products and one read. The hint, with
    // those of `Pair` (column_terms): without them certify's walk over the columns took half as long again (docs/BENCHMARKS.md).
    #[inline(always)]
    pub fn at(&self, p: Place) -> Multiplier
        requires { Member (row_boxes self.now.counts) (index_of p) }
        ensures { result ≡ multiplier_of (get_or self.now.list.now (number (row_boxes self.now.counts) (index_of p)) (pos 0)) }
    {
        let k = p.kind;
        let o = inside_of(self.counts, set_of(k), p.year, p.first, p.second, p.slice);
        multiplier_in(self.list, self.starts[k] + o)
    }
}

// A multiplier for every row, with the starts of the families. `Counted` is asked: the reason stands beside it (tables/specs/Layout.antt).
pub fn lay_out_multipliers(list: &[i64], counts: Counts) -> Multipliers<'_>
    requires { Counted counts × (length list.now ≡ count (row_boxes counts)) }
    ensures { (result.list.now ≡ list.now) × (result.counts ≡ counts) }
{
    Multipliers {
        list,
        counts,
        starts: row_starts(shape_of(counts)),
    }
}

// Data whose entries are in range, with a multiplier for each of its rows: what prices the columns and makes the gap.
#[derive(Drop)]
pub struct Pricing<'a> {
    pub tested: TestedTables<'a>,
    pub multipliers: Multipliers<'a>,
    pub ghost same_counts: { multipliers.counts ≡ tested.tables.now.counts },
}

// The largest size below zero: 2^40 in an equality, 0 elsewhere. Whether a family's rows are equalities is a flag of document 01's table of families, here and
// in `in_range`: what it changes is a number to compare with, and no step to choose.
fn most_below(equal: bool) -> u64
    ensures { result ≡ on equal most_multiplier }
{
    if equal {
        return MOST_MULTIPLIER;
    }
    0
}

fn in_range(m: Multiplier, equal: bool) -> bool
    ensures { result ≡ (leb m.up most_multiplier && leb m.down (on equal most_multiplier)) }
{
    m.up <= MOST_MULTIPLIER && m.down <= most_below(equal)
}

// Refusal 10: every multiplier in the order of the rows, left at the first that is out of range.
fn test_ranges(multipliers: &Multipliers) -> Result<(), Refusal>
    ensures { (D : Data) → D.counts ≡ multipliers.now.counts → result ≡ outcome (multipliers_fault D multipliers.now.list.now) }
{
    for k in 0..FAMILY_COUNT {
        let f = family_at(k);
        let equal = f.equal;
        for row in multipliers.starts[k]..multipliers.starts[k + 1] {
            let m = multiplier_in(multipliers.list, row);
            if !in_range(m, equal) {
                return Err(Refusal::Multiplier(row));
            }
        }
    }
    Ok(())
}

// Refusals 9 and 10.
pub fn test_multipliers(ms: &[i64], shape: Shape) -> Result<(), Refusal>
    requires { Shaped shape }
    ensures { (D : Data) → D.counts ≡ shape.counts → result ≡ outcome (or_else (multiplier_count_fault D ms.now) (multipliers_fault D ms.now)) }
{
    let starts = row_starts(shape);
    let whole = starts[FAMILY_COUNT];
    if ms.len() != whole {
        return Err(Refusal::MultiplierCount(whole));
    }
    let multipliers = Multipliers {
        list: ms,
        counts: shape.counts,
        starts,
    };
    test_ranges(&multipliers)
}
