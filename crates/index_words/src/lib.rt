// The indices of a row, a column or an entry in words, each counted from 1.
#![tactic(auto)]

ghost use Rattle.std.specs.Prelude.{◌≡◌, [], ◌++◌, ◌+◌, ◌≤◌, get_or, map};
ghost use Rattle.sums.specs.Index.{index_of};
ghost use Rattle.tables.specs.Layout.{Counted};
ghost use Rattle.writer.specs.Decimal.{decimal};
ghost use Rattle.writer.specs.Writing.{room, added};
ghost use Rattle.index_words.specs.Indices.{slice_words, index_words, indices_words, place_words, Low};

use model::Counts;
use places::slice_at;
use sums::Place;
use writer::{Line, ROOM};

// What an index stands for.
#[derive(Clone, Copy, Debug, PartialEq, Eq)]
enum Meaning {
    Year,
    Zone,
    SecondZone,
    Plant,
    Fuel,
    Slice,
    Season,
    LoadSeason,
    LoadDay,
}

use Meaning::{Fuel, LoadDay, LoadSeason, Plant, Season, SecondZone, Slice, Year, Zone};

// The index sets by code, each as what its indices stand for. A table beside `box_of` (tables): the calls for C stand on that one, and have no words.
const SETS: [&[Meaning]; 19] = [
    &[Year, Zone, Slice],
    &[Year, Zone, SecondZone, Slice],
    &[Year, Zone],
    &[Year, Plant, Slice],
    &[Year, Plant, Season],
    &[Year, Plant],
    &[Plant],
    &[Year, Zone, Fuel],
    &[],
    &[Year],
    &[Slice],
    &[LoadSeason, LoadDay],
    &[Plant, Season],
    &[Plant, Slice],
    &[Zone],
    &[Year, Zone, SecondZone, Season],
    &[Year, Zone, SecondZone],
    &[Year, Fuel],
    &[Zone, SecondZone],
];

// Words, and an index counted from 0 as one counted from 1.
pub fn say_counted(line: &mut Line<ROOM>, words: &[u8], index: usize)
    requires { index ≤ 1000 }
    ensures { line.new ≡ added room line.old (words.now ++ decimal (index + 1)) }
{
    line.say_with(words, index as u64 + 1);
}

// A member's indices, to each of which 1 can be added in a machine word, and the counts by which a slice has its season, day and hour.
#[derive(Clone, Copy)]
struct Indices {
    counts: Counts,
    place: Place,
    ghost counted: { Counted counts },
    ghost low: { Low place },
}

impl Indices {
    // The slice by its season, its day and its hour.
    #[tactic(auto, using(crate::proofs::Laws::low_parts))]
    fn say_slice(&self, line: &mut Line<ROOM>)
        ensures { line.new ≡ added room line.old (slice_words self.now.counts self.now.place.slice) }
    {
        let slice = slice_at(self.counts, self.place.slice);
        say_counted(line, b", season ", slice.season);
        say_counted(line, b", day ", slice.day);
        say_counted(line, b", hour ", slice.hour);
    }

    // An index, by what it stands for.
    #[tactic(auto, unfolding(crate::specs::Indices::index_words))]
    fn say(&self, line: &mut Line<ROOM>, meaning: Meaning)
        ensures { line.new ≡ added room line.old (index_words self.now.counts (index_of self.now.place) meaning) }
    {
        let p = self.place;
        match meaning {
            Year => say_counted(line, b", year ", p.year),
            Zone => say_counted(line, b", zone ", p.first),
            SecondZone => say_counted(line, b", to zone ", p.second),
            Plant => say_counted(line, b", plant ", p.first),
            Fuel => say_counted(line, b", fuel ", p.second),
            Slice => self.say_slice(line),
            Season => say_counted(line, b", season ", p.slice),
            LoadSeason => say_counted(line, b", season ", p.first),
            LoadDay => say_counted(line, b", day ", p.second),
        }
    }

    // Several indices, one behind another.
    #[tactic(auto, unfolding(crate::specs::Indices::indices_words), using(crate::proofs::Laws::several))]
    fn say_all(&self, line: &mut Line<ROOM>, meanings: &[Meaning])
        ensures { line.new ≡ added room line.old (indices_words self.now.counts (index_of self.now.place) meanings.now) }
    {
        for meaning in meanings {
            self.say(line, *meaning);
        }
    }

    // The indices of the set of number `set`.
    #[tactic(auto, unfolding(crate::specs::Indices::indices_words), using(crate::proofs::Laws::listed))]
    fn say_set(&self, line: &mut Line<ROOM>, sets: &[&[Meaning]], set: usize)
        ensures { line.new ≡ added room line.old (indices_words self.now.counts (index_of self.now.place) (get_or (map (λ meanings. meanings.now) sets.now) set [])) }
    {
        if let Some(meanings) = sets.get(set) {
            self.say_all(line, meanings);
        }
    }
}

// The indices of a member of the index set of a code. `Counted` is asked: the reason stands beside it (tables/specs/Layout.antt).
#[tactic(auto, unfolding(crate::specs::Indices::place_words))]
pub fn say_place(line: &mut Line<ROOM>, c: Counts, set: usize, p: Place)
    requires { Counted c × Low p }
    ensures { line.new ≡ added room line.old (place_words c set (index_of p)) }
{
    let indices = Indices {
        counts: c,
        place: p,
    };
    indices.say_set(line, &SETS, set);
}
