// The figures behind a refusal: the sums of a row, the sums and the price of a column, an entry and its range.
// Each by the place that `places` finds, for lists that passed the refusals before.
// A place is asked inside its index set (`Member`): the reason stands beside `Inside` (tables/specs/Layout.antt).
#![tactic(auto)]

ghost use Rattle.std.specs.Prelude.{◌≡◌, ℕ, ◌+◌, ◌-◌, length, Ok};
ghost use Rattle.sums.specs.Span.{fine, fault, or_else};
ghost use Rattle.sums.specs.Index.{count, Member, index_of};
ghost use Rattle.model.specs.declared.Refusal.TheVariants.{Underpriced};
ghost use Rattle.model.specs.Data.{table_boxes, place_of, read};
ghost use Rattle.model.specs.Columns.{column_boxes, entries};
ghost use Rattle.model.specs.Families.{row_boxes};
ghost use Rattle.model.specs.Prices.{price};
ghost use Rattle.model.specs.Tests.{head_fault, counts_fault, length_fault, data_fault, priced⁺, priced⁻, column_fault};
ghost use Rattle.tables.specs.Lists.{data_of};
ghost use Rattle.figures.specs.Figures.{row_figures, column_figures, entry_figures};

use capped::Sum;
use column_prices::{hours_of, unit_price};
use columns::column_sums;
use compared::{Balance, difference};
use data_tests::lay_out;
use duals::{Pricing, lay_out_multipliers};
use energy::totals::ENERGY_COUNT;
use energy_table::fill_energies;
use plan_tests::lay_out_plan;
use ranges::range_at;
use row_sums::Sides;
use rows::row_sides;
use rows::years::{TestedCase, year_of};
use sums::Place;
use tables::lists::{Case, TestedTables, number_at};

// What a column's terms m·a above zero and below come to, its price, and how far it is underpriced: up - (price + down).
#[derive(Clone, Copy, Debug, PartialEq, Eq)]
pub struct ColumnFigures {
    pub up: Sum,
    pub down: Sum,
    pub price: Sum,
    pub short: Balance,
}

// An entry of the data, and the least and the most that it may be.
#[derive(Clone, Copy, Debug, PartialEq, Eq)]
pub struct EntryFigures {
    pub least: u64,
    pub most: u64,
    pub entry: u64,
}

// What a row's positive terms and its negative terms come to, of data and plan that passed refusals 1 to 3, 16 and 5.
// Lists come singly, here and in `column_figures`: each is handed what it reads, and `answer_words::Inputs` would hand each all four.
// Both ask `data_fault` ≡ fine, not the tables: a refusal comes back without them, so explain has the bare lists, and they are laid out again here.
pub fn row_figures(data: &[u32], scale: u32, plan: &[u32], p: Place) -> Sides
    requires { (data_fault «data».now ≡ fine) × ((length plan.now ≡ count (column_boxes (read «data».now).counts)) × Member (row_boxes (read «data».now).counts) (index_of p)) }
    ensures { result ≡ row_figures (read «data».now) scale (entries (read «data».now) plan.now) (index_of p) }
{
    let tables = lay_out(data);
    let plan = lay_out_plan(plan, tables.counts);
    let case = Case { tables, plan };
    let mut energy = [capped::keep(capped::zero()); ENERGY_COUNT];
    fill_energies(&case, &mut energy);
    let tested = TestedCase {
        case: &case,
        energy: &energy,
    };
    let year = year_of(&tested, p.year);
    row_sides(&year, u64::from(scale), p)
}

// The sums and the price of the column at a place.
fn priced_at(pricing: &Pricing, p: Place) -> ColumnFigures
    requires { Member (column_boxes pricing.now.multipliers.counts) (index_of p) }
    ensures { result ≡ column_figures (data_of pricing.now.tested.tables.now) pricing.now.multipliers.list.now (index_of p) }
{
    let sums = column_sums(pricing, p);
    let unit = unit_price(pricing.tested.tables, p.kind, p.year, p.first, p.second);
    let hours = hours_of(pricing.tested.tables, p.kind, p.slice);
    let price = capped::scale(unit, hours);
    ColumnFigures {
        up: sums.up,
        down: sums.down,
        price,
        short: difference(sums.up, capped::join(price, sums.down)),
    }
}

// A column of data that passed refusals 1 to 3 and 16, with a multiplier for each row. Of an underpriced column `short` is how far it is.
pub fn column_figures<'a>(data: &'a [u32], multipliers: &'a [i64], p: Place) -> ColumnFigures
    requires { (data_fault «data».now ≡ fine) × ((length multipliers.now ≡ count (row_boxes (read «data».now).counts)) × Member (column_boxes (read «data».now).counts) (index_of p)) }
    ensures { (result ≡ column_figures (read «data».now) multipliers.now (index_of p))
        × ((n : ℕ) → column_fault (read «data».now) multipliers.now (index_of p) ≡ fault (Underpriced n)
        → result.short ≡ Ok (priced⁺ (read «data».now) multipliers.now (index_of p)
        - (price (read «data».now) (index_of p) + priced⁻ (read «data».now) multipliers.now (index_of p)))) }
{
    let tables = lay_out(data);
    let multipliers = lay_out_multipliers(multipliers, tables.counts);
    let tested = TestedTables { tables: &tables };
    priced_at(
        &Pricing {
            tested,
            multipliers,
        },
        p,
    )
}

// The entry at `place` of data that passed refusals 1 and 2; `p` is what stands there. The data comes bare, as in `row_figures` and so in `entry_words`:
// refusal 3 comes back without the tables.
pub fn entry_figures(data: &[u32], p: Place, place: usize) -> EntryFigures
    requires { (or_else (head_fault «data».now) (or_else (counts_fault «data».now) (length_fault «data».now)) ≡ fine)
        × (Member (table_boxes (read «data».now).counts) (index_of p) × (place_of (read «data».now).counts (index_of p) ≡ place)) }
    ensures { result ≡ entry_figures (read «data».now) (index_of p) }
{
    let tables = lay_out(data);
    let range = range_at(&tables, p.kind, p.first, p.second);
    EntryFigures {
        least: u64::from(range.least),
        most: u64::from(range.most),
        entry: number_at(data, place),
    }
}
