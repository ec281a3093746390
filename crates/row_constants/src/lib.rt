// The constant of any row: its family decides which.
// A place is asked inside its index set (`Member`): the reason stands beside `Inside` (tables/specs/Layout.antt).
#![tactic(auto)]

ghost use Rattle.std.specs.Prelude.{◌≡◌};
ghost use Rattle.sums.specs.Index.{index_of, Member};
ghost use Rattle.model.specs.Families.{row_boxes};
ghost use Rattle.constants.specs.Constants.{constant_of};
ghost use Rattle.tables.specs.Lists.{data_of};

use constants::{Constant, NONE};
use fleet_constants::{
    capital_constant, fuel_use_constant, level_limit_constant, new_capacity_constant,
    stock_constant, system_emission_constant, yearly_build_constant, zone_emission_constant,
};
use sums::Place;
use tables::families::{
    BALANCE, CAPITAL, FIRM, FUEL_USE, LEVEL_LIMIT, NEW_CAPACITY, NEW_LINES, SPINNING, STOCK,
    SYSTEM_EMISSION, TRANSFER, YEARLY_BUILD, ZONE_EMISSION,
};
use tables::lists::TestedTables;
use zone_constants::{
    balance_constant, firm_constant, new_lines_constant, spinning_constant, transfer_constant,
};

// The constant of row p. Its family is told by its number counted from 0.
#[tactic(auto, unfolding(constants::specs::Constants::constant_of, model::specs::Families::row_boxes))]
pub fn constant_at(tested: &TestedTables, p: Place) -> Constant
    requires { Member (row_boxes tested.now.tables.now.counts) (index_of p) }
    ensures { result ≡ constant_of (data_of tested.now.tables.now) (index_of p) }
{
    match p.kind {
        BALANCE => balance_constant(tested, p.year, p.first, p.slice),
        TRANSFER => transfer_constant(tested.tables, p.year, p.first, p.second, p.slice),
        SPINNING => spinning_constant(tested.tables, p.year, p.first, p.slice),
        FIRM => firm_constant(tested, p.year, p.first),
        STOCK => stock_constant(tested.tables, p.year, p.first),
        NEW_CAPACITY => new_capacity_constant(tested.tables, p.first),
        YEARLY_BUILD => yearly_build_constant(tested.tables, p.year, p.first),
        FUEL_USE => fuel_use_constant(tested.tables, p.year, p.second),
        CAPITAL => capital_constant(tested.tables),
        ZONE_EMISSION => zone_emission_constant(tested.tables, p.year, p.first),
        SYSTEM_EMISSION => system_emission_constant(tested.tables, p.year),
        LEVEL_LIMIT => level_limit_constant(tested.tables, p.first),
        NEW_LINES => new_lines_constant(tested.tables, p.first, p.second),
        // 5 to 11, 13, 14, 21 to 24, 26 and 28
        _ => NONE,
    }
}
