// The columns of links and zones: trans, unmet, surplus, spinshort and firmshort.
// An index is asked below its count: the reason stands beside `Inside` (tables/specs/Layout.antt).
#![tactic(auto)]

ghost use Rattle.std.specs.Prelude.{◌≡◌, ◌<◌};
ghost use Rattle.sums.specs.Index.{index};
ghost use Rattle.sums.specs.Linear.{nothing, ◌·◌};
ghost use Rattle.model.specs.Counts.{slices_of};
ghost use Rattle.model.specs.Families.{row};
ghost use Rattle.model.specs.Standing.{trans_in⁺, trans_in⁻};
ghost use Rattle.column_terms.specs.Pairs.{pair_of, RowAt};
ghost use Rattle.tables.specs.Lists.{data_of};

use column_terms::Pair;
use column_terms::readers::delivered;
use duals::{Multipliers, Pricing};
use tables::families::{BALANCE, SPINNING, TRANSFER};

// From z to w: families 1 (z sends, w receives less the loss), 2 and 3.
pub fn trans_column(pricing: &Pricing, y: usize, z: usize, w: usize, s: usize) -> Pair
    requires { (y < pricing.now.multipliers.counts.years) × ((z < pricing.now.multipliers.counts.zones) × ((w < pricing.now.multipliers.counts.zones) × (s < slices_of pricing.now.multipliers.counts))) }
    ensures { result ≡ pair_of pricing.now.multipliers.counts pricing.now.multipliers.list.now (trans_in⁺ (data_of pricing.now.tested.tables.now) y z w s) (trans_in⁻ (data_of pricing.now.tested.tables.now) y z w s) }
{
    let kept = delivered(&pricing.tested, y, z, w);
    let multipliers = &pricing.multipliers;
    Pair::none()
        .add_row_if(z != w, kept, multipliers, BALANCE, y, w, 0, s)
        .take_row_if(z != w, 1000, multipliers, BALANCE, y, z, 0, s)
        .take_row(1, multipliers, TRANSFER, y, z, w, s)
        .take_row_if(z != w, 1000, multipliers, SPINNING, y, w, 0, s)
}

// Unmet, spinshort and firmshort: what a row of family 1, 3 or 4 (`k` counts from 0) is short of.
pub fn shortfall_column(multipliers: &Multipliers, k: usize, y: usize, z: usize, s: usize) -> Pair
    requires { RowAt multipliers.now.counts k y z 0 s }
    ensures { result ≡ pair_of multipliers.now.counts multipliers.now.list.now (1 · index k y z 0 s) nothing }
{
    Pair::none().add_row(1, multipliers, k, y, z, 0, s)
}

// Family 1.
pub fn surplus_column(multipliers: &Multipliers, y: usize, z: usize, s: usize) -> Pair
    requires { (y < multipliers.now.counts.years) × ((z < multipliers.now.counts.zones) × (s < slices_of multipliers.now.counts)) }
    ensures { result ≡ pair_of multipliers.now.counts multipliers.now.list.now nothing (1 · row 1 y z 0 s) }
{
    Pair::none().take_row(1, multipliers, BALANCE, y, z, 0, s)
}
