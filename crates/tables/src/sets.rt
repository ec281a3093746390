// The index sets by their codes, and the fixed table of families.
ghost use Rattle.std.specs.Prelude.{◌≡◌, ◌*◌, ◌≤◌, ◌<◌};
ghost use Rattle.sums.specs.Index.{box_of, volume, inside};
ghost use Rattle.model.specs.Counts.{sets, slices_of};
ghost use Rattle.model.specs.Families.{family_of, shape_of, family_count};
ghost use Rattle.tables.specs.Layout.{Counted, Small, Inside};

use model::{Counts, FAMILY_COUNT, Family, Shape};
use sums::Box;

// The codes of the index sets, in the order of the definitions (`sets`). Numbers and no enum: document 01 asks for a fixed table of families that holds the
// code of each one's index set, and the definitions look the set up by it.
pub const BY_YEAR_ZONE_SLICE: usize = 0; // y, z, s

pub const BY_LINK_SLICE: usize = 1; // y, z, z2, s

pub const BY_YEAR_ZONE: usize = 2; // y, z

pub const BY_YEAR_PLANT_SLICE: usize = 3; // y, g, s

pub const BY_YEAR_PLANT_SEASON: usize = 4; // y, g, q

pub const BY_YEAR_PLANT: usize = 5; // y, g

pub const BY_PLANT: usize = 6; // g

pub const BY_YEAR_ZONE_FUEL: usize = 7; // y, z, f

pub const SINGLE: usize = 8; // one member

pub const BY_YEAR: usize = 9; // y

pub const BY_SLICE: usize = 10; // s

pub const BY_DAY: usize = 11; // q, d

pub const BY_PLANT_SEASON: usize = 12; // g, q

pub const BY_PLANT_SLICE: usize = 13; // g, s

pub const BY_ZONE: usize = 14; // z

pub const BY_LINK_SEASON: usize = 15; // y, z, z2, q

pub const BY_LINK: usize = 16; // y, z, z2

pub const BY_YEAR_FUEL: usize = 17; // y, f

pub const BY_PAIR: usize = 18; // z, z2

// Equation number (0: the source has none), index set and equality of each family, in the order of documents 01 and 02.
const FAMILIES: [Family; FAMILY_COUNT] = [
    Family {
        equation: 14,
        set: BY_YEAR_ZONE_SLICE,
        equal: true,
    },
    Family {
        equation: 15,
        set: BY_LINK_SLICE,
        equal: false,
    },
    Family {
        equation: 19,
        set: BY_YEAR_ZONE_SLICE,
        equal: false,
    },
    Family {
        equation: 21,
        set: BY_YEAR_ZONE,
        equal: false,
    },
    Family {
        equation: 22,
        set: BY_YEAR_PLANT_SLICE,
        equal: false,
    },
    Family {
        equation: 23,
        set: BY_YEAR_PLANT_SLICE,
        equal: false,
    },
    Family {
        equation: 24,
        set: BY_YEAR_PLANT_SLICE,
        equal: false,
    },
    Family {
        equation: 25,
        set: BY_YEAR_PLANT_SLICE,
        equal: false,
    },
    Family {
        equation: 26,
        set: BY_YEAR_PLANT_SLICE,
        equal: false,
    },
    Family {
        equation: 27,
        set: BY_YEAR_PLANT_SEASON,
        equal: false,
    },
    Family {
        equation: 28,
        set: BY_YEAR_PLANT_SLICE,
        equal: false,
    },
    Family {
        equation: 34,
        set: BY_YEAR_PLANT,
        equal: true,
    },
    Family {
        equation: 37,
        set: BY_YEAR_PLANT,
        equal: false,
    },
    Family {
        equation: 61,
        set: BY_YEAR_PLANT,
        equal: false,
    },
    Family {
        equation: 55,
        set: BY_PLANT,
        equal: false,
    },
    Family {
        equation: 58,
        set: BY_YEAR_PLANT,
        equal: false,
    },
    Family {
        equation: 62,
        set: BY_YEAR_ZONE_FUEL,
        equal: false,
    },
    Family {
        equation: 64,
        set: SINGLE,
        equal: false,
    },
    Family {
        equation: 66,
        set: BY_YEAR_ZONE,
        equal: false,
    },
    Family {
        equation: 68,
        set: BY_YEAR,
        equal: false,
    },
    Family {
        equation: 43,
        set: BY_YEAR_PLANT_SLICE,
        equal: true,
    },
    Family {
        equation: 45,
        set: BY_YEAR_PLANT_SLICE,
        equal: false,
    },
    Family {
        equation: 47,
        set: BY_YEAR_PLANT_SLICE,
        equal: false,
    },
    Family {
        equation: 48,
        set: BY_YEAR_PLANT_SLICE,
        equal: false,
    },
    Family {
        equation: 46,
        set: BY_YEAR_PLANT_SLICE,
        equal: false,
    },
    Family {
        equation: 0,
        set: BY_LINK,
        equal: true,
    },
    Family {
        equation: 0,
        set: BY_PAIR,
        equal: false,
    },
    Family {
        equation: 0,
        set: BY_LINK,
        equal: true,
    },
];

// One of six readers of a fixed table: the reason stands beside `table_set` (starts.rt).
pub fn family_at(k: usize) -> Family
    requires { k < family_count }
    ensures { result ≡ family_of k }
{
    FAMILIES[k]
}

// `Counted` is asked here and below: the reason stands beside it (specs/Layout.antt).

// S = Q·D·T
pub fn slices_of(c: Counts) -> usize
    requires { Counted c }
    ensures { (result ≡ slices_of c) × (result ≤ 384) }
{
    c.seasons * c.days * c.hours
}

// The index set of one member.
const ONE: Box = Box {
    years: 1,
    firsts: 1,
    seconds: 1,
    slices: 1,
};

// The index set of a code. An unknown code has no members; no table, kind of column or family has one (the law `known-codes`, proofs/Laws.antt).
#[tactic(auto, using(crate::proofs::Laws::boxed))]
pub fn box_of(c: Counts, set: usize) -> Box
    requires { Counted c }
    ensures { (result ≡ box_of (sets c) set) × Small result }
{
    let s = slices_of(c);
    match set {
        BY_YEAR_ZONE_SLICE => Box {
            years: c.years,
            firsts: c.zones,
            slices: s,
            ..ONE
        },
        BY_LINK_SLICE => Box {
            years: c.years,
            firsts: c.zones,
            seconds: c.zones,
            slices: s,
        },
        BY_YEAR_ZONE => Box {
            years: c.years,
            firsts: c.zones,
            ..ONE
        },
        BY_YEAR_PLANT_SLICE => Box {
            years: c.years,
            firsts: c.plants,
            slices: s,
            ..ONE
        },
        BY_YEAR_PLANT_SEASON => Box {
            years: c.years,
            firsts: c.plants,
            slices: c.seasons,
            ..ONE
        },
        BY_YEAR_PLANT => Box {
            years: c.years,
            firsts: c.plants,
            ..ONE
        },
        BY_PLANT => Box {
            firsts: c.plants,
            ..ONE
        },
        BY_YEAR_ZONE_FUEL => Box {
            years: c.years,
            firsts: c.zones,
            seconds: c.fuels,
            ..ONE
        },
        SINGLE => ONE,
        BY_YEAR => Box {
            years: c.years,
            ..ONE
        },
        BY_SLICE => Box { slices: s, ..ONE },
        BY_DAY => Box {
            firsts: c.seasons,
            seconds: c.days,
            ..ONE
        },
        BY_PLANT_SEASON => Box {
            firsts: c.plants,
            slices: c.seasons,
            ..ONE
        },
        BY_PLANT_SLICE => Box {
            firsts: c.plants,
            slices: s,
            ..ONE
        },
        BY_ZONE => Box {
            firsts: c.zones,
            ..ONE
        },
        BY_LINK_SEASON => Box {
            years: c.years,
            firsts: c.zones,
            seconds: c.zones,
            slices: c.seasons,
        },
        BY_LINK => Box {
            years: c.years,
            firsts: c.zones,
            seconds: c.zones,
            ..ONE
        },
        BY_YEAR_FUEL => Box {
            years: c.years,
            seconds: c.fuels,
            ..ONE
        },
        BY_PAIR => Box {
            firsts: c.zones,
            seconds: c.zones,
            ..ONE
        },
        _ => Box {
            years: 0,
            firsts: 0,
            seconds: 0,
            slices: 0,
        },
    }
}

// How many members an index set has.
pub fn members_of(b: Box) -> usize
    requires { Small b }
    ensures { (result ≡ volume b) × (result ≤ 983040) }
{
    b.years * b.firsts * b.seconds * b.slices
}

// The number of a member inside the index set of code `k`, the last index running fastest.
#[tactic(auto, using(crate::proofs::Laws::few_inside))]
pub fn inside_of(c: Counts, k: usize, y: usize, i: usize, j: usize, s: usize) -> usize
    requires { Counted c × Inside c k y i j s }
    ensures { result ≡ inside (box_of (sets c) k) y i j s }
{
    let b = box_of(c, k);
    ((y * b.firsts + i) * b.seconds + j) * b.slices + s
}

// The counts and the family sizes that follow from them.
pub fn shape_of(c: Counts) -> Shape
    requires { Counted c }
    ensures { result ≡ shape_of c }
{
    let sizes = FAMILIES.map(|f| members_of(box_of(c, f.set)));
    Shape { counts: c, sizes }
}
