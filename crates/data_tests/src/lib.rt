// The tests of the data: refusals 1, 2, 3 and 16.
// An index is asked below its count: the reason stands beside `Inside` (tables/specs/Layout.antt).
#![tactic(auto)]

ghost use Rattle.std.specs.Prelude.{ℕ, true, false, ◌≡◌, ◌&&◌, ◌≤◌, ◌<◌, length, get_or};
ghost use Rattle.sums.specs.Span.{Fault, fine, fault, or_else, upto};
ghost use Rattle.model.specs.Data.{counts_of, most_counts, within, ◌to◌, is_battery, is_vre};
ghost use Rattle.model.specs.Tests.{head_fault, counts_fault, length_fault, entries_fault, storage_fault, data_fault};
ghost use Rattle.model.specs.Calls.{outcome};
ghost use Rattle.tables.specs.Lists.{data_of};

use entry_tests::test_entries;
use model::{Counts, Refusal, TABLE_COUNT};
use ranges::{Range, in_range};
use tables::lists::Tables;
use tables::starts::table_starts;

// The largest that each count may be.
const MOST_COUNTS: [u32; 7] = [8, 32, 8, 4, 4, 24, 10];

// One of six readers of a fixed table: the reason stands beside `table_set` (tables/src/starts.rt).
pub fn most_count(i: usize) -> u32
    requires { i < 7 }
    ensures { result ≡ get_or most_counts i 0 }
{
    MOST_COUNTS[i]
}

// The counts, the first seven numbers. Seven are asked of the list, here and below, and no `&[u32; 7]` taken: its callers hold the whole list, which the
// definitions read.
pub fn counts_of(data: &[u32]) -> Counts
    requires { 7 ≤ length «data».now }
    ensures { result ≡ counts_of «data».now }
{
    Counts {
        zones: data[0] as usize,
        plants: data[1] as usize,
        fuels: data[2] as usize,
        seasons: data[3] as usize,
        days: data[4] as usize,
        hours: data[5] as usize,
        years: data[6] as usize,
    }
}

// Whether number `i` is 1 or more and as large as that count may be.
fn is_count(data: &[u32], i: usize) -> bool
    requires { (i < 7) × (7 ≤ length «data».now) }
    ensures { result ≡ within (1 to get_or most_counts i 0) (get_or «data».now i 0) }
{
    let r = Range {
        least: 1,
        most: most_count(i),
    };
    in_range(r, data[i])
}

// The refusal of the first of n numbers, in order, that is bad, where one is.
// In `0..n` the place of a number is the number. `position` takes the test as it is, where `find` would put a closure around each call of it.
fn first_refused<P: Fn(usize) -> bool, R: Fn(usize) -> Refusal>(
    n: usize,
    bad: P,
    refusal: R,
) -> Result<(), Refusal>
    requires { (i : ℕ) → i < n → P.pre bad i × R.pre refusal i }
    ensures { (f : ℕ → Fault Refusal) → ((i : ℕ) → i < n → P.post bad i false → f i ≡ fine)
        → ((i : ℕ) (r : Refusal) → i < n → P.post bad i true → R.post refusal i r → f i ≡ fault r) → result ≡ outcome (upto n f) }
{
    match (0..n).position(bad) {
        Some(i) => Err(refusal(i)),
        None => Ok(()),
    }
}

// Refusal 1.
fn test_counts(data: &[u32]) -> Result<(), Refusal>
    requires { 7 ≤ length «data».now }
    ensures { result ≡ outcome (counts_fault «data».now) }
{
    first_refused(7, |i| !is_count(data, i), Refusal::Shape)
}

// Refusal 2, the length that the counts give.
fn test_length(data: &[u32]) -> Result<(), Refusal>
    requires { (7 ≤ length «data».now) × (counts_fault «data».now ≡ fine) }
    ensures { result ≡ outcome (length_fault «data».now) }
{
    let tables_at = table_starts(counts_of(data));
    let whole = tables_at[TABLE_COUNT];
    if data.len() != whole {
        return Err(Refusal::DataLength(whole));
    }
    Ok(())
}

// Refusals 1 and 2. With under seven numbers there are no counts to test.
pub fn test_head(data: &[u32]) -> Result<(), Refusal>
    ensures { result ≡ outcome (or_else (head_fault «data».now) (or_else (counts_fault «data».now) (length_fault «data».now))) }
{
    if data.len() < 7 {
        return Err(Refusal::DataLength(7));
    }
    test_counts(data)?;
    test_length(data)
}

// The data that passed refusals 1 and 2, with its counts and the starts of its tables.
pub fn lay_out(list: &[u32]) -> Tables<'_>
    requires { or_else (head_fault list.now) (or_else (counts_fault list.now) (length_fault list.now)) ≡ fine }
    ensures { result.list.now ≡ list.now }
{
    let counts = counts_of(list);
    Tables {
        list,
        counts,
        starts: table_starts(counts),
    }
}

fn is_vre_battery(tables: &Tables, g: usize) -> bool
    requires { g < tables.now.counts.plants }
    ensures { result ≡ (is_battery (data_of tables.now) g && is_vre (data_of tables.now) g) }
{
    tables.is_battery(g) && tables.is_vre(g)
}

// Refusal 16: the lowest plant that is a battery and has VRE set.
fn test_storage(tables: &Tables) -> Result<(), Refusal>
    ensures { result ≡ outcome (storage_fault (data_of tables.now)) }
{
    first_refused(
        tables.counts.plants,
        |g| is_vre_battery(tables, g),
        Refusal::Storage,
    )
}

// Refusals 3 and 16: all entries before any battery.
#[tactic(auto, using(crate::proofs::Passed::in_order))]
fn test_tables(tables: &Tables) -> Result<(), Refusal>
    ensures { result ≡ outcome (or_else (entries_fault (data_of tables.now)) (storage_fault (data_of tables.now))) }
{
    test_entries(tables)?;
    test_storage(tables)
}

// All of it.
pub fn test_data(data: &[u32]) -> Result<(), Refusal>
    ensures { result ≡ outcome (data_fault «data».now) }
{
    test_head(data)?;
    test_tables(&lay_out(data))
}
