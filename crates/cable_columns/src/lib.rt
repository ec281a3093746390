// The columns of the lines that are built between zones: built and total.
// An index is asked below its count: the reason stands beside `Inside` (tables/specs/Layout.antt).
#![tactic(auto)]

ghost use Rattle.std.specs.Prelude.{◌≡◌, ◌≤◌, ◌<◌};
ghost use Rattle.sums.specs.Linear.{nothing, ∑};
ghost use Rattle.model.specs.Counts.{slices_of};
ghost use Rattle.model.specs.Data.{Data, mw_per_line, most32};
ghost use Rattle.model.specs.Standing.{built_in⁻, total_in_slice⁺, total_in⁺, total_in⁻};
ghost use Rattle.column_terms.specs.Pairs.{pair_of};
ghost use Rattle.tables.specs.Lists.{data_of};

use column_terms::Pair;
use duals::{Multipliers, Pricing};
use tables::families::{LINE_BALANCE, LINES_BOTH_WAYS, NEW_LINES, SPINNING, TRANSFER};
use tables::names::MW_PER_LINE;
use tables::sets::slices_of;

// Families 26 and 27.
pub fn built_column(multipliers: &Multipliers, y: usize, z: usize, w: usize) -> Pair
    requires { (y < multipliers.now.counts.years) × ((z < multipliers.now.counts.zones) × (w < multipliers.now.counts.zones)) }
    ensures { (D : Data) → result ≡ pair_of multipliers.now.counts multipliers.now.list.now nothing (built_in⁻ D y z w) }
{
    Pair::none()
        .take_row(1, multipliers, LINE_BALANCE, y, z, w, 0)
        .take_row(1, multipliers, NEW_LINES, 0, z, w, 0)
}

// The rows of one slice: family 2 and, where the line goes to another zone, 3. `power` is the MW of a line.
fn total_in_slice(
    power: u64,
    multipliers: &Multipliers,
    y: usize,
    z: usize,
    w: usize,
    s: usize,
) -> Pair
    requires { (power ≤ most32) × ((y < multipliers.now.counts.years) × ((z < multipliers.now.counts.zones) × ((w < multipliers.now.counts.zones) × (s < slices_of multipliers.now.counts)))) }
    ensures { (D : Data) → power ≡ mw_per_line D z w → result ≡ pair_of multipliers.now.counts multipliers.now.list.now (total_in_slice⁺ D y z w s) nothing }
{
    Pair::none()
        .add_row(power, multipliers, TRANSFER, y, z, w, s)
        .add_row_if(z != w, 1000 * power, multipliers, SPINNING, y, w, 0, s)
}

// The rows of all slices. Where a line would carry nothing, the column does not stand in them.
fn total_in_slices(pricing: &Pricing, y: usize, z: usize, w: usize) -> Pair
    requires { (y < pricing.now.multipliers.counts.years) × ((z < pricing.now.multipliers.counts.zones) × (w < pricing.now.multipliers.counts.zones)) }
    ensures { result ≡ pair_of pricing.now.multipliers.counts pricing.now.multipliers.list.now (∑ (slices_of pricing.now.multipliers.counts) (total_in_slice⁺ (data_of pricing.now.tested.tables.now) y z w)) nothing }
{
    let power = pricing.tested.tables.by_pair(MW_PER_LINE, z, w);
    if power == 0 {
        return Pair::none();
    }
    let n = slices_of(pricing.multipliers.counts);
    Pair::total(
        n,
        |s| total_in_slice(power, &pricing.multipliers, y, z, w, s),
    )
}

// Families 2 and 3 in every slice, 26 (this year's row and the next's), and 28: of the pair's row the lower zone's direction is the left side.
pub fn total_column(pricing: &Pricing, y: usize, z: usize, w: usize) -> Pair
    requires { (y < pricing.now.multipliers.counts.years) × ((z < pricing.now.multipliers.counts.zones) × (w < pricing.now.multipliers.counts.zones)) }
    ensures { result ≡ pair_of pricing.now.multipliers.counts pricing.now.multipliers.list.now (total_in⁺ (data_of pricing.now.tested.tables.now) y z w) (total_in⁻ (data_of pricing.now.tested.tables.now) y z w) }
{
    let multipliers = &pricing.multipliers;
    let next = y + 1;
    total_in_slices(pricing, y, z, w)
        .add_row(1, multipliers, LINE_BALANCE, y, z, w, 0)
        .take_row_if(
            next < multipliers.counts.years,
            1,
            multipliers,
            LINE_BALANCE,
            next,
            z,
            w,
            0,
        )
        .add_row_if(z < w, 1, multipliers, LINES_BOTH_WAYS, y, z, w, 0)
        .take_row_if(w < z, 1, multipliers, LINES_BOTH_WAYS, y, w, z, 0)
}
