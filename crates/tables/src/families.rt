// The families' numbers, counted from 0. Numbers and no enum: each is a place in the fixed table of families and in the sizes of `Shape`, the walks over all
// families count with it, and a `Place` has the kind of a row, of a column or of an entry alike. An enum would need a list of its 28
// values, or an arm for each, to make one of a loop's number, and be a number again at each table. That a number is one of them is asked where a table is read
// by it. RAMP_UPWARD is `ramp_upward` of the definitions: RAMP_UP is a table of the data.
pub const BALANCE: usize = 0;

pub const TRANSFER: usize = 1;

pub const SPINNING: usize = 2;

pub const FIRM: usize = 3;

pub const LOADING: usize = 4;

pub const OFFER: usize = 5;

pub const RAMP_DOWN: usize = 6;

pub const RAMP_UPWARD: usize = 7;

pub const MINIMUM_LOAD: usize = 8;

pub const AVAILABLE: usize = 9;

pub const PROFILED: usize = 10;

pub const STOCK: usize = 11;

pub const LIFE: usize = 12;

pub const FIXED: usize = 13;

pub const NEW_CAPACITY: usize = 14;

pub const YEARLY_BUILD: usize = 15;

pub const FUEL_USE: usize = 16;

pub const CAPITAL: usize = 17;

pub const ZONE_EMISSION: usize = 18;

pub const SYSTEM_EMISSION: usize = 19;

pub const BATTERY_LEVEL: usize = 20;

pub const CHARGE_LIMIT: usize = 21;

pub const CHARGE_RISE: usize = 22;

pub const CHARGE_FALL: usize = 23;

pub const LEVEL_LIMIT: usize = 24;

pub const LINE_BALANCE: usize = 25;

pub const NEW_LINES: usize = 26;

pub const LINES_BOTH_WAYS: usize = 27;
