// Families 1 to 4 and 27: the constants of the rows of a zone and of a pair of zones.
// An index is asked below its count: the reason stands beside `Inside` (tables/specs/Layout.antt).
#![tactic(auto, unfolding(constants::specs::Constants::constant_of))]

ghost use Rattle.std.specs.Prelude.{◌≡◌, ◌+◌, ◌<◌, ◌≤◌};
ghost use Rattle.model.specs.Counts.{slices_of};
ghost use Rattle.model.specs.Data.{ee, prm};
ghost use Rattle.model.specs.Families.{row};
ghost use Rattle.constants.specs.Constants.{constant_of};
ghost use Rattle.tables.specs.Lists.{data_of};

use constants::Constant;
use link_limits::{limits_into, lowest_limits_into};
use parts::slices::season_of;
use peaks::zone_peak;
use tables::lists::{Entries, Tables, TestedTables};
use tables::names::{DEMAND, EE, LINE_LIMIT, PRM, S_RES, TL};

// The thousandths that the Demand of a slice is multiplied by in the balance.
fn ee_of(tested: &TestedTables, y: usize, z: usize) -> u64
    requires { (y < tested.now.tables.now.counts.years) × (z < tested.now.tables.now.counts.zones) }
    ensures { (result ≡ ee (data_of tested.now.tables.now) y z) × (result ≤ 5000) }
{
    tested.tables.by_year_zone(EE, y, z)
}

// The thousandths that the peak is multiplied by for firm capacity: 1000 + PRM.
fn margin_of(tested: &TestedTables, z: usize) -> u64
    requires { z < tested.now.tables.now.counts.zones }
    ensures { (result ≡ 1000 + prm (data_of tested.now.tables.now) z) × (result ≤ 2000) }
{
    1000 + tested.tables.by_zone(PRM, z)
}

// 1: − Demand·EE
pub fn balance_constant(tested: &TestedTables, y: usize, z: usize, s: usize) -> Constant
    requires { (y < tested.now.tables.now.counts.years) × ((z < tested.now.tables.now.counts.zones) × (s < slices_of tested.now.tables.now.counts)) }
    ensures { result ≡ constant_of (data_of tested.now.tables.now) (row 1 y z 0 s) }
{
    let demand = tested.tables.by_year_zone_slice(DEMAND, y, z, s);
    Constant::taking(demand * ee_of(tested, y, z))
}

// 2: TL
pub fn transfer_constant(tables: &Tables, y: usize, z: usize, w: usize, s: usize) -> Constant
    requires { (y < tables.now.counts.years) × ((z < tables.now.counts.zones) × ((w < tables.now.counts.zones) × (s < slices_of tables.now.counts))) }
    ensures { result ≡ constant_of (data_of tables.now) (row 2 y z w s) }
{
    Constant::adding(tables.by_link_season(TL, y, z, w, season_of(tables.counts, s)))
}

// 3: 1000·Σ TL[z2,z] − 1000·SRes
pub fn spinning_constant(tables: &Tables, y: usize, z: usize, s: usize) -> Constant
    requires { (y < tables.now.counts.years) × ((z < tables.now.counts.zones) × (s < slices_of tables.now.counts)) }
    ensures { result ≡ constant_of (data_of tables.now) (row 3 y z 0 s) }
{
    let links = limits_into(tables, y, z, season_of(tables.counts, s));
    Constant {
        adds: 1000 * links,
        takes: 1000 * tables.by_year_zone(S_RES, y, z),
    }
}

// 4: 1000·Σ of the lowest season limit of TL[z2,z] − (1000 + PRM)·peak. The peak is the data's own, not scaled by EE.
pub fn firm_constant(tested: &TestedTables, y: usize, z: usize) -> Constant
    requires { (y < tested.now.tables.now.counts.years) × (z < tested.now.tables.now.counts.zones) }
    ensures { result ≡ constant_of (data_of tested.now.tables.now) (row 4 y z 0 0) }
{
    let links = lowest_limits_into(tested.tables, y, z);
    let peak = zone_peak(tested.tables, y, z);
    Constant {
        adds: 1000 * links,
        takes: margin_of(tested, z) * peak,
    }
}

// 27: line limit
pub fn new_lines_constant(tables: &Tables, z: usize, w: usize) -> Constant
    requires { (z < tables.now.counts.zones) × (w < tables.now.counts.zones) }
    ensures { result ≡ constant_of (data_of tables.now) (row 27 0 z w 0) }
{
    Constant::adding(tables.by_pair(LINE_LIMIT, z, w))
}
