// The lists that a caller hands over, each with its counts and the starts of its tables: the data and the plan, read by table and index.
// There is a reader for each index set by which a table is read alone, named as the documents write it: `by_plant(GEN_CAP, g)` is GenCap[g].
// Each is its index set's code handed to `entry_in`, which does the reading. With the code a constant, inlining leaves a few products and one read; so no
// reader looks the code up by its table.
// Readers of the same shape, as `by_plant` and `by_zone`, are not one with the code handed in: that is `entry_in`, at which a caller has to know that the
// two indices of `by_year_plant` are the first and the second of four, and `by_day`'s the second and the third. One for both of a shape would be handed the
// code, `by_first(ZONE, BY_PLANT, g)` for `by_plant(ZONE, g)`, and no call would say less.
// Each asks its indices below their counts (`EntryAt`): the reason stands beside `Inside` (specs/Layout.antt).
ghost use Rattle.std.specs.Prelude.{◌≡◌, List, ℕ, ◌+◌, ◌≤◌, ◌<◌, length, get_or};
ghost use Rattle.sums.specs.Span.{fine};
ghost use Rattle.model.specs.Columns.{column_sets};
ghost use Rattle.model.specs.declared.Counts.{Counts};
ghost use Rattle.model.specs.Counts.{[yzs], [yzzs], [yz], [yg], [g], [one], [y], [s], [qd], [gq], [gs], [z], [yzzq], [yzz], [yf], [zz]};
ghost use Rattle.model.specs.Data.{read, most32};
ghost use Rattle.model.specs.Tests.{entries_fault};
ghost use Rattle.tables.specs.Layout.{Counted, TablesAt, ColumnsAt, EntryAt, table_sets};

use crate::sets::{
    BY_DAY, BY_LINK, BY_LINK_SEASON, BY_LINK_SLICE, BY_PAIR, BY_PLANT, BY_PLANT_SEASON,
    BY_PLANT_SLICE, BY_SLICE, BY_YEAR, BY_YEAR_FUEL, BY_YEAR_PLANT, BY_YEAR_ZONE,
    BY_YEAR_ZONE_SLICE, BY_ZONE, SINGLE, inside_of,
};
use crate::starts::{ColumnStarts, TableStarts};
use model::Counts;

// A number of a list, widened.
pub fn number_at(list: &[u32], i: usize) -> u64
    requires { i < length list.now }
    ensures { (result ≡ get_or list.now i 0) × (result ≤ most32) }
{
    u64::from(list[i])
}

// The data, a plan and the multipliers (`duals`) are three structs and not one of three kinds: what lies in their fields has the same shape, what is known
// of it is another fact each time, and a list of one kind must not be taken for another's.

// The data list, laid out: it passed refusals 1 and 2.
#[derive(Drop)]
pub struct Tables<'a> {
    pub list: &'a [u32],
    pub counts: Counts,
    pub starts: TableStarts,
    pub ghost laid_out: { TablesAt list.now starts counts },
}

// A plan of the right length.
#[derive(Drop)]
pub struct Plan<'a> {
    pub list: &'a [u32],
    pub counts: Counts,
    pub starts: ColumnStarts,
    pub ghost counted: { Counted counts },
    pub ghost laid_out: { ColumnsAt list.now starts counts },
}

// A plan beside the data that it is a plan for.
#[derive(Drop)]
pub struct Case<'a> {
    pub tables: Tables<'a>,
    pub plan: Plan<'a>,
    pub ghost same_counts: { plan.counts ≡ tables.counts },
}

// Data whose entries are all in range: it passed refusal 3 too.
#[derive(Clone, Copy)]
pub struct TestedTables<'a> {
    pub tables: &'a Tables<'a>,
    pub ghost tested: { entries_fault (read tables.now.list.now) ≡ fine },
}

// A list that is read by table and index: the data, or a plan, whose tables are its kinds of column. Here are the readers of index sets that both have; what
// one of them has alone stands below as a method of its own, since no call could read the other so.
pub trait Entries {
    // The index sets of its tables, its counts, and the entry of a table at a year, a first index, a second index and a slice.
    ghost kinds: { List ℕ };

    ghost counts: { Self → Counts };

    ghost entry: { Self → ℕ → ℕ → ℕ → ℕ → ℕ → ℕ };

    // Any entry: table `t`, whose index set has the code `k`, at year `y`, first index `i`, second index `j` and slice `s`.
    fn entry_in(&self, t: usize, k: usize, y: usize, i: usize, j: usize, s: usize) -> u64
        requires { EntryAt kinds (counts self.now) t k y i j s }
        ensures { (result ≡ entry self.now t y i j s) × (result ≤ most32) };

    fn by_year_plant(&self, t: usize, y: usize, g: usize) -> u64
        requires { EntryAt kinds (counts self.now) t [yg] y g 0 0 }
        ensures { (result ≡ entry self.now t y g 0 0) × (result ≤ most32) }
    {
        self.entry_in(t, BY_YEAR_PLANT, y, g, 0, 0)
    }

    fn by_year_zone_slice(&self, t: usize, y: usize, z: usize, s: usize) -> u64
        requires { EntryAt kinds (counts self.now) t [yzs] y z 0 s }
        ensures { (result ≡ entry self.now t y z 0 s) × (result ≤ most32) }
    {
        self.entry_in(t, BY_YEAR_ZONE_SLICE, y, z, 0, s)
    }

    fn by_year_zone(&self, t: usize, y: usize, z: usize) -> u64
        requires { EntryAt kinds (counts self.now) t [yz] y z 0 0 }
        ensures { (result ≡ entry self.now t y z 0 0) × (result ≤ most32) }
    {
        self.entry_in(t, BY_YEAR_ZONE, y, z, 0, 0)
    }

    fn by_link(&self, t: usize, y: usize, z: usize, w: usize) -> u64
        requires { EntryAt kinds (counts self.now) t [yzz] y z w 0 }
        ensures { (result ≡ entry self.now t y z w 0) × (result ≤ most32) }
    {
        self.entry_in(t, BY_LINK, y, z, w, 0)
    }
}

// The two bodies below are the same two lines: each is proved from what is known of its own list. One body in `Entries` would need the list, its counts and
// its starts as three methods more, and a law of what they say together.
impl Entries for Tables<'_> {
    ghost use Rattle.tables.specs.Lists.{data_of};

    ghost kinds = { table_sets };

    ghost counts = { λ t. t.counts };

    ghost entry = { λ t. (data_of t).entry };

    fn entry_in(&self, t: usize, k: usize, y: usize, i: usize, j: usize, s: usize) -> u64 {
        let o = inside_of(self.counts, k, y, i, j, s);
        number_at(self.list, self.starts[t] + o)
    }
}

impl Entries for Plan<'_> {
    ghost use Rattle.sums.specs.Index.{index};
    ghost use Rattle.tables.specs.Lists.{entry_of};

    ghost kinds = { column_sets };

    ghost counts = { λ p. p.counts };

    ghost entry = { λ p t y i j s. entry_of p (index t y i j s) };

    fn entry_in(&self, t: usize, k: usize, y: usize, i: usize, j: usize, s: usize) -> u64 {
        let o = inside_of(self.counts, k, y, i, j, s);
        number_at(self.list, self.starts[t] + o)
    }
}

// The readers of the index sets by which tables of the data alone are read.
impl Tables<'_> {
    ghost use Rattle.tables.specs.Lists.{data_of};

    pub fn by_year(&self, t: usize, y: usize) -> u64
        requires { EntryAt table_sets self.now.counts t [y] y 0 0 0 }
        ensures { (result ≡ (data_of self.now).entry t y 0 0 0) × (result ≤ most32) }
    {
        self.entry_in(t, BY_YEAR, y, 0, 0, 0)
    }

    pub fn by_slice(&self, t: usize, s: usize) -> u64
        requires { EntryAt table_sets self.now.counts t [s] 0 0 0 s }
        ensures { (result ≡ (data_of self.now).entry t 0 0 0 s) × (result ≤ most32) }
    {
        self.entry_in(t, BY_SLICE, 0, 0, 0, s)
    }

    pub fn by_day(&self, t: usize, q: usize, d: usize) -> u64
        requires { EntryAt table_sets self.now.counts t [qd] 0 q d 0 }
        ensures { (result ≡ (data_of self.now).entry t 0 q d 0) × (result ≤ most32) }
    {
        self.entry_in(t, BY_DAY, 0, q, d, 0)
    }

    pub fn by_plant(&self, t: usize, g: usize) -> u64
        requires { EntryAt table_sets self.now.counts t [g] 0 g 0 0 }
        ensures { (result ≡ (data_of self.now).entry t 0 g 0 0) × (result ≤ most32) }
    {
        self.entry_in(t, BY_PLANT, 0, g, 0, 0)
    }

    pub fn by_plant_season(&self, t: usize, g: usize, q: usize) -> u64
        requires { EntryAt table_sets self.now.counts t [gq] 0 g 0 q }
        ensures { (result ≡ (data_of self.now).entry t 0 g 0 q) × (result ≤ most32) }
    {
        self.entry_in(t, BY_PLANT_SEASON, 0, g, 0, q)
    }

    pub fn by_plant_slice(&self, t: usize, g: usize, s: usize) -> u64
        requires { EntryAt table_sets self.now.counts t [gs] 0 g 0 s }
        ensures { (result ≡ (data_of self.now).entry t 0 g 0 s) × (result ≤ most32) }
    {
        self.entry_in(t, BY_PLANT_SLICE, 0, g, 0, s)
    }

    pub fn by_zone(&self, t: usize, z: usize) -> u64
        requires { EntryAt table_sets self.now.counts t [z] 0 z 0 0 }
        ensures { (result ≡ (data_of self.now).entry t 0 z 0 0) × (result ≤ most32) }
    {
        self.entry_in(t, BY_ZONE, 0, z, 0, 0)
    }

    pub fn by_link_season(&self, t: usize, y: usize, z: usize, w: usize, q: usize) -> u64
        requires { EntryAt table_sets self.now.counts t [yzzq] y z w q }
        ensures { (result ≡ (data_of self.now).entry t y z w q) × (result ≤ most32) }
    {
        self.entry_in(t, BY_LINK_SEASON, y, z, w, q)
    }

    pub fn by_pair(&self, t: usize, z: usize, w: usize) -> u64
        requires { EntryAt table_sets self.now.counts t [zz] 0 z w 0 }
        ensures { (result ≡ (data_of self.now).entry t 0 z w 0) × (result ≤ most32) }
    {
        self.entry_in(t, BY_PAIR, 0, z, w, 0)
    }

    pub fn by_year_fuel(&self, t: usize, y: usize, f: usize) -> u64
        requires { EntryAt table_sets self.now.counts t [yf] y 0 f 0 }
        ensures { (result ≡ (data_of self.now).entry t y 0 f 0) × (result ≤ most32) }
    {
        self.entry_in(t, BY_YEAR_FUEL, y, 0, f, 0)
    }

    pub fn single(&self, t: usize) -> u64
        requires { EntryAt table_sets self.now.counts t [one] 0 0 0 0 }
        ensures { (result ≡ (data_of self.now).entry t 0 0 0 0) × (result ≤ most32) }
    {
        self.entry_in(t, SINGLE, 0, 0, 0, 0)
    }
}

impl Plan<'_> {
    ghost use Rattle.sums.specs.Index.{index};
    ghost use Rattle.tables.specs.Lists.{entry_of};

    pub fn by_link_slice(&self, t: usize, y: usize, z: usize, w: usize, s: usize) -> u64
        requires { EntryAt column_sets self.now.counts t [yzzs] y z w s }
        ensures { (result ≡ entry_of self.now (index t y z w s)) × (result ≤ most32) }
    {
        self.entry_in(t, BY_LINK_SLICE, y, z, w, s)
    }
}
