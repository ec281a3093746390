// The season, the day and the hour of a slice s = (q·D + d)·T + t, and what is asked of its day.
// `Counted` is asked: the reason stands beside it (tables/specs/Layout.antt).
ghost use Rattle.std.specs.Prelude.{◌≡◌, ◌*◌, ◌/◌, ◌%◌, ◌≤◌, ◌<◌, ◌&&◌, eqb};
ghost use Rattle.model.specs.Counts.{slices_of, season_length};
ghost use Rattle.model.specs.Data.{on_min_load_day};
ghost use Rattle.tables.specs.Layout.{Counted};
ghost use Rattle.tables.specs.Lists.{data_of};

use model::Counts;
use tables::lists::Tables;
use tables::names::MIN_LOAD;

// D·T, the slices of a season: 4 days of 24 hours are the most.
pub fn season_length(c: Counts) -> usize
    requires { Counted c }
    ensures { (result ≡ season_length c) × (result ≤ 96) }
{
    c.days * c.hours
}

pub fn season_of(c: Counts, s: usize) -> usize
    requires { Counted c × (s < slices_of c) }
    ensures { (result ≡ s / season_length c) × (result < c.seasons) }
{
    s / season_length(c)
}

pub fn day_of(c: Counts, s: usize) -> usize
    requires { Counted c }
    ensures { (result ≡ s / c.hours % c.days) × (result < c.days) }
{
    s / c.hours % c.days
}

// Whether a slice is the first hour of its day, where no ramp row joins it to the hour before.
pub fn first_hour(c: Counts, s: usize) -> bool
    requires { Counted c }
    ensures { result ≡ eqb (s % c.hours) 0 }
{
    s % c.hours == 0
}

// Family 9's condition.
pub fn on_min_load_day(tables: &Tables, s: usize) -> bool
    requires { s < slices_of tables.now.counts }
    ensures { result ≡ on_min_load_day (data_of tables.now) s }
{
    tables.by_day(
        MIN_LOAD,
        season_of(tables.counts, s),
        day_of(tables.counts, s),
    ) == 1
}
