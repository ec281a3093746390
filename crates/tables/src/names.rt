// The tables' numbers: in the data list, and in the plan. Numbers and no enum: each is a place in the lists of index sets, ranges and starts, and the walks
// over all tables count with them. An enum would need a list of its 48 and 14 values, or an arm for each, to make one of a loop's number, and be a number again
// at each table. That a number is one of them is asked where a table is read by it.
pub const RATE: usize = 0;

pub const WEIGHT: usize = 1;

pub const DURATION: usize = 2;

pub const MIN_LOAD: usize = 3;

pub const ZONE: usize = 4;

pub const FUEL: usize = 5;

pub const KIND: usize = 6;

pub const VRE: usize = 7;

pub const GEN_CAP: usize = 8;

pub const YEAR: usize = 9;

pub const MAX_NEW_CAP: usize = 10;

pub const OVER_LOAD: usize = 11;

pub const RES_OFFER: usize = 12;

pub const RAMP_DN: usize = 13;

pub const RAMP_UP: usize = 14;

pub const MIN_CAP_FAC: usize = 15;

pub const CAP_CREDIT: usize = 16;

pub const HEAT_RATE: usize = 17;

pub const EMISSION: usize = 18;

pub const RES_COST: usize = 19;

pub const AVAILABILITY: usize = 20;

pub const PROFILE: usize = 21;

pub const ANNUITY: usize = 22;

pub const FIXED_OM: usize = 23;

pub const GEN_COST: usize = 24;

pub const DEMAND: usize = 25;

pub const EE: usize = 26;

pub const S_RES: usize = 27;

pub const PRM: usize = 28;

pub const TL: usize = 29;

pub const LOSS: usize = 30;

pub const ZONE_CAP: usize = 31;

pub const SYSTEM_CAP: usize = 32;

pub const TAX: usize = 33;

pub const MAX_FUEL: usize = 34;

pub const BUILD_LIMIT: usize = 35;

pub const VOLL: usize = 36;

pub const SURPLUS_PENALTY: usize = 37;

pub const RES_VOLL: usize = 38;

pub const SRES_VOLL: usize = 39;

pub const ERR: usize = 40;

pub const MAX_CAPITAL: usize = 41;

pub const BATTERY: usize = 42;

pub const EFFICIENCY: usize = 43;

pub const ENERGY_CAPACITY: usize = 44;

pub const LINE_LIMIT: usize = 45;

pub const MW_PER_LINE: usize = 46;

pub const LINE_ANNUITY: usize = 47;

pub const CAP: usize = 0;

pub const BUILD: usize = 1;

pub const RETIRE: usize = 2;

pub const GEN: usize = 3;

pub const RESERVE: usize = 4;

pub const TRANS: usize = 5;

pub const UNMET: usize = 6;

pub const SURPLUS: usize = 7;

pub const SPINSHORT: usize = 8;

pub const FIRMSHORT: usize = 9;

pub const CHARGE: usize = 10;

pub const LEVEL: usize = 11;

pub const BUILT_LINES: usize = 12;

pub const TOTAL_LINES: usize = 13;
