// From the number of a row, a column or a data entry to its kind and indices: the inverse of document 01's numbering.
#![tactic(auto)]

ghost use Rattle.std.specs.Prelude.{◌≡◌, List, ℕ, ◌+◌, ◌-◌, ◌≤◌, ◌<◌, length, get_or};
ghost use Rattle.std.specs.List.Sorted.{IsNonDecreasing};
ghost use Rattle.sums.specs.declared.Box.{Box};
ghost use Rattle.sums.specs.Index.{box_of, volume, count, number, Member, index_of};
ghost use Rattle.model.specs.Data.{table_boxes, place_of, data_length};
ghost use Rattle.model.specs.Columns.{column_boxes};
ghost use Rattle.model.specs.Families.{row_boxes};
ghost use Rattle.tables.specs.Layout.{Counted};
ghost use Rattle.places.specs.Numbers.{Numbered, InBox, Starts, slice_at};

use duals::row_starts;
use model::Counts;
use sums::{Box, Place};
use tables::sets::{box_of, family_at, shape_of};
use tables::starts::{column_box, column_starts, table_box, table_starts};

// A slice by its season, its day of the season and its hour of the day, each counted from 0.
#[derive(Clone, Copy)]
pub struct Slice {
    pub season: usize,
    pub day: usize,
    pub hour: usize,
}

// The kind that holds number `n`, by the numbers at which the kinds start, in their order; the last of them is the end.
fn kind_of(starts: &[usize], n: usize) -> usize
    requires { IsNonDecreasing starts.now × ((get_or starts.now 0 0 ≤ n) × (n < get_or starts.now (length starts.now - 1) 0)) }
    ensures { (result + 1 < length starts.now) × ((get_or starts.now result 0 ≤ n) × (n < get_or starts.now (result + 1) 0)) }
{
    starts.partition_point(|s| *s <= n) - 1
}

// Member `m` of an index set, by division: the last index runs fastest.
fn member_at(b: Box, kind: usize, m: usize) -> Place
    requires { m < volume b }
    ensures { InBox b kind m result }
{
    let pair = m / b.slices;
    let line = pair / b.seconds;
    let year = line / b.firsts;
    let first = line % b.firsts;
    let second = pair % b.seconds;
    let slice = m % b.slices;
    Place {
        kind,
        year,
        first,
        second,
        slice,
    }
}

// The member of number `n`, where `set` has the index set of each kind: its kind by the starts, its indices by division.
fn place_in<F: Fn(usize) -> Box>(starts: &[usize], n: usize, set: F) -> Place
    requires around { IsNonDecreasing starts.now × ((get_or starts.now 0 0 ≤ n) × (n < get_or starts.now (length starts.now - 1) 0)) }
    requires callable { (k : ℕ) → k + 1 < length starts.now → F.pre set k }
    requires wide { (k : ℕ) (b : Box) → k + 1 < length starts.now → F.post set k b → get_or starts.now (k + 1) 0 ≤ get_or starts.now k 0 + volume b }
    ensures { (boxes : List Box) (from : ℕ) → Starts boxes from starts.now → ((k : ℕ) (b : Box) → k < length boxes → F.post set k b → b ≡ box_of boxes k)
        → Member boxes (index_of result) × (from + number boxes (index_of result) ≡ n) }
{
    let k = kind_of(starts, n);
    member_at(set(k), k, n - starts[k])
}

// The four below ask `Counted` of counts that stand bare: the reason stands beside it (tables/specs/Layout.antt).

// The row of a number.
pub fn row_place(c: Counts, row: usize) -> Place
    requires { Counted c × (row < count (row_boxes c)) }
    ensures { Numbered (row_boxes c) row result }
{
    let starts = row_starts(shape_of(c));
    place_in(&starts, row, |k| box_of(c, family_at(k).set))
}

// The column of a number.
pub fn column_place(c: Counts, column: usize) -> Place
    requires { Counted c × (column < count (column_boxes c)) }
    ensures { Numbered (column_boxes c) column result }
{
    let starts = column_starts(c);
    place_in(&starts, column, |k| column_box(c, k))
}

// The entry at a place of the data list; the counts stand before the tables.
pub fn entry_place(c: Counts, place: usize) -> Place
    requires { Counted c × ((7 ≤ place) × (place < data_length c)) }
    ensures { Member (table_boxes c) (index_of result) × (place_of c (index_of result) ≡ place) }
{
    let starts = table_starts(c);
    place_in(&starts, place, |t| table_box(c, t))
}

// The season, the day and the hour of a slice.
// Not by `parts::slices`: `season_of` asks for a slice of the year, and this answers for any number; the day then comes of the same quotient.
#[tactic(auto, unfolding(crate::specs::Numbers::slice_at))]
pub fn slice_at(c: Counts, s: usize) -> Slice
    requires { Counted c }
    ensures { result ≡ slice_at c s }
{
    let day_of_year = s / c.hours;
    Slice {
        season: day_of_year / c.days,
        day: day_of_year % c.days,
        hour: s % c.hours,
    }
}
