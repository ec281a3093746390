// The peak demand of a year and zone.
// An index is asked below its count: the reason stands beside `Inside` (tables/specs/Layout.antt).
#![tactic(auto)]

ghost use Rattle.std.specs.Prelude.{◌≡◌, ◌≤◌, ◌<◌, max, length, get_or};
ghost use Rattle.sums.specs.Sum.{largest};
ghost use Rattle.model.specs.Data.{peak, most32};
ghost use Rattle.tables.specs.Lists.{data_of};

use tables::lists::Tables;
use tables::names::DEMAND;
use tables::sets::{BY_YEAR_ZONE_SLICE, inside_of, slices_of};

// The peak of a span is the larger of its halves' peaks, and a single slice's is its Demand. Document 01 names this recursion over the halves.
fn peak_of(demand: &[u32]) -> u32
    ensures { result ≡ largest (length demand.now) (λ i. get_or demand.now i 0) }
{
    match demand {
        [] => 0,
        [only] => *only,
        _ => {
            let (earlier, later) = demand.split_at(demand.len() / 2);
            peak_of(earlier).max(peak_of(later))
        }
    }
}

// The largest Demand[y,z,·], over a part of the data. `hour_costs` takes a part of the plan likewise. A method of `Entries` for both would have
// a body in each impl, as `entry_in` has, and save nothing.
#[tactic(auto, using(crate::proofs::Laws::part_below))]
pub fn zone_peak(tables: &Tables, y: usize, z: usize) -> u64
    requires { (y < tables.now.counts.years) × (z < tables.now.counts.zones) }
    ensures { (result ≡ peak (data_of tables.now) y z) × (result ≤ most32) }
{
    let n = slices_of(tables.counts);
    let from = tables.starts[DEMAND] + inside_of(tables.counts, BY_YEAR_ZONE_SLICE, y, z, 0, 0);
    let to = from + n;
    u64::from(peak_of(&tables.list[from..to]))
}
