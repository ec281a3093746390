// The columns under the multipliers: Σ m·a of each column, over the rows that it stands in, positive and negative terms apart.
// A place is asked inside its index set (`Member`): the reason stands beside `Inside` (tables/specs/Layout.antt).
#![tactic(auto)]

ghost use Rattle.std.specs.Prelude.{◌≡◌};
ghost use Rattle.sums.specs.Index.{index_of, Member};
ghost use Rattle.model.specs.Columns.{column_boxes};
ghost use Rattle.column_terms.specs.Pairs.{priced_pair};
ghost use Rattle.tables.specs.Lists.{data_of};

use cable_columns::{built_column, total_column};
use capacity_columns::{build_column, cap_column, retire_column};
use column_terms::Pair;
use dispatch_columns::{gen_column, reserve_column};
use duals::Pricing;
use storage_columns::{charge_column, level_column};
use sums::Place;
use tables::families::{BALANCE, FIRM, SPINNING};
use tables::names::{
    BUILD, BUILT_LINES, CAP, CHARGE, FIRMSHORT, GEN, LEVEL, RESERVE, RETIRE, SPINSHORT, SURPLUS,
    TRANS, UNMET,
};
use zone_columns::{shortfall_column, surplus_column, trans_column};

// Column p, of any kind. By match over the kinds, as document 01 has it of the families: each arm takes the indices that its kind has.
#[tactic(auto, unfolding(model::specs::Columns::column_boxes), using(tables::proofs::Laws::last_arm))]
pub fn column_sums(pricing: &Pricing, p: Place) -> Pair
    requires { Member (column_boxes pricing.now.multipliers.counts) (index_of p) }
    ensures { result ≡ priced_pair (data_of pricing.now.tested.tables.now) pricing.now.multipliers.list.now (index_of p) }
{
    match p.kind {
        CAP => cap_column(pricing, p.year, p.first),
        BUILD => build_column(pricing, p.year, p.first),
        RETIRE => retire_column(pricing, p.year, p.first),
        GEN => gen_column(pricing, p.year, p.first, p.slice),
        RESERVE => reserve_column(pricing, p.year, p.first, p.slice),
        TRANS => trans_column(pricing, p.year, p.first, p.second, p.slice),
        UNMET => shortfall_column(&pricing.multipliers, BALANCE, p.year, p.first, p.slice),
        SURPLUS => surplus_column(&pricing.multipliers, p.year, p.first, p.slice),
        SPINSHORT => shortfall_column(&pricing.multipliers, SPINNING, p.year, p.first, p.slice),
        FIRMSHORT => shortfall_column(&pricing.multipliers, FIRM, p.year, p.first, p.slice),
        CHARGE => charge_column(pricing, p.year, p.first, p.slice),
        LEVEL => level_column(pricing, p.year, p.first, p.slice),
        BUILT_LINES => built_column(&pricing.multipliers, p.year, p.first, p.second),
        // total
        _ => total_column(pricing, p.year, p.first, p.second),
    }
}
