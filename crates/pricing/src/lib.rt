// The walk over all columns, in the order of the plan, left at the first that is off scale or underpriced: refusals 11 and 12.
// A place is asked inside its index set (`Member`): the reason stands beside `Inside` (tables/specs/Layout.antt).
#![tactic(auto)]

ghost use Rattle.std.specs.Prelude.{◌≡◌};
ghost use Rattle.capped.specs.Cap.{cap};
ghost use Rattle.sums.specs.Index.{index_of, number, Member};
ghost use Rattle.model.specs.Columns.{column_boxes};
ghost use Rattle.model.specs.Tests.{column_fault, columns_fault};
ghost use Rattle.model.specs.Calls.{outcome};
ghost use Rattle.column_prices.specs.Factors.{unit_price};
ghost use Rattle.tables.specs.Lists.{data_of};

use capped::Sum;
use column_prices::{hours_of, unit_price};
use columns::column_sums;
use duals::Pricing;
use model::{COLUMN_KIND_COUNT, Refusal};
use sums::Place;
use tables::starts::column_box;
use verdicts::columns::verdict;

// The test of column p, whose number is `column`; `unit` is the price of its unit, or of a unit's hour.
fn test_column(pricing: &Pricing, p: Place, unit: Sum, column: usize) -> Result<(), Refusal>
    requires { (Member (column_boxes pricing.now.multipliers.counts) (index_of p)) × ((unit ≡ cap (unit_price (data_of pricing.now.tested.tables.now) p.kind p.year p.first p.second)) × (column ≡ number (column_boxes pricing.now.multipliers.counts) (index_of p))) }
    ensures { result ≡ outcome (column_fault (data_of pricing.now.tested.tables.now) pricing.now.multipliers.list.now (index_of p)) }
{
    let sums = column_sums(pricing, p);
    let price = capped::scale(unit, hours_of(pricing.tested.tables, p.kind, p.slice));
    verdict(sums, price, column)
}

// Refusals 11 and 12.
// No iterator over an index set: the unit's price, which does not depend on the slice, is found between the loops, and the number is counted beside them.
// An iterator over the four indices would serve `constant_terms` (`gap`) alone: `test_rows` and `test_entries` find something between their loops too.
#[tactic(auto, unfolding(sums::specs::Span::upto, sums::specs::Sum::sum), using(sums::proofs::Spans::upto_step))]
pub fn test_columns(pricing: &Pricing) -> Result<(), Refusal>
    ensures { result ≡ outcome (columns_fault (data_of pricing.now.tested.tables.now) pricing.now.multipliers.list.now) }
{
    let mut column = 0;
    for k in 0..COLUMN_KIND_COUNT {
        let b = column_box(pricing.multipliers.counts, k);
        for y in 0..b.years {
            for i in 0..b.firsts {
                for j in 0..b.seconds {
                    let unit = unit_price(pricing.tested.tables, k, y, i, j);
                    for s in 0..b.slices {
                        let p = Place {
                            kind: k,
                            year: y,
                            first: i,
                            second: j,
                            slice: s,
                        };
                        test_column(pricing, p, unit, column)?;
                        column += 1;
                    }
                }
            }
        }
    }
    Ok(())
}
