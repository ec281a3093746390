// The limits of the links into a zone, summed over the other zones.
// An index is asked below its count: the reason stands beside `Inside` (tables/specs/Layout.antt).
#![tactic(auto)]

ghost use Rattle.std.specs.Prelude.{◌≡◌, not, ◌≤◌, ◌<◌, min, eqb};
ghost use Rattle.sums.specs.Sum.{sum, least, on};
ghost use Rattle.model.specs.Data.{tl, most32};
ghost use Rattle.link_limits.specs.Limits.{most_into};
ghost use Rattle.tables.specs.Lists.{data_of};

use tables::lists::Tables;
use tables::names::TL;
use terms::totals::exact_total;

// Σ TL[u,z] over the other zones u, in season q.
pub fn limits_into(tables: &Tables, y: usize, z: usize, q: usize) -> u64
    requires { (y < tables.now.counts.years) × ((z < tables.now.counts.zones) × (q < tables.now.counts.seasons)) }
    ensures { (result ≡ sum tables.now.counts.zones (λ u. on (not (eqb u z)) (tl (data_of tables.now) y u z q))) × (result ≤ most_into) }
{
    exact_total(
        tables.counts.zones,
        |u| where_other(u, z, tables.by_link_season(TL, y, u, z, q)),
    )
}

// A limit of a link between two zones, 0 within one.
fn where_other(u: usize, z: usize, limit: u64) -> u64
    ensures { (result ≡ on (not (eqb u z)) limit) × (result ≤ limit) }
{
    if u == z { 0 } else { limit }
}

// Σ of the lowest season limit of TL[u,z] over the other zones u.
pub fn lowest_limits_into(tables: &Tables, y: usize, z: usize) -> u64
    requires { (y < tables.now.counts.years) × (z < tables.now.counts.zones) }
    ensures { (result ≡ sum tables.now.counts.zones (λ u. on (not (eqb u z)) (least tables.now.counts.seasons (λ q. tl (data_of tables.now) y u z q)))) × (result ≤ most_into) }
{
    exact_total(
        tables.counts.zones,
        |u| where_other(u, z, lowest_limit(tables, y, u, z)),
    )
}

// The lowest of TL[u,z] over the seasons. There is at least one; of none `least` of the definitions gives 0, so no case has to be ruled out.
fn lowest_limit(tables: &Tables, y: usize, u: usize, z: usize) -> u64
    requires { (y < tables.now.counts.years) × ((u < tables.now.counts.zones) × (z < tables.now.counts.zones)) }
    ensures { (result ≡ least tables.now.counts.seasons (λ q. tl (data_of tables.now) y u z q)) × (result ≤ most32) }
{
    (0..tables.counts.seasons)
        .map(|q| tables.by_link_season(TL, y, u, z, q))
        .min()
        .unwrap_or(0)
}
