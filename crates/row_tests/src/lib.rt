// The walk over all rows, in the order of documents 01 and 02, left at the first row not met: refusals 6 and 7.
#![tactic(auto)]

ghost use Rattle.std.specs.Prelude.{◌≡◌, ◌<◌};
ghost use Rattle.sums.specs.Index.{number, index_of};
ghost use Rattle.model.specs.Families.{family_of, row_boxes, family_count};
ghost use Rattle.model.specs.Tests.{row_fault, rows_fault};
ghost use Rattle.model.specs.Calls.{outcome};
ghost use Rattle.tables.specs.Layout.{Inside};
ghost use Rattle.tables.specs.Lists.{data_of, entry_of};

use model::{FAMILY_COUNT, Refusal};
use rows::row_sides;
use rows::years::{TestedCase, Year, year_of};
use sums::Place;
use tables::sets::{box_of, family_at};
use verdicts::rows::verdict;

// The test of one row, whose number is `row`.
// `equal` is no switch: whether a family's rows are equalities is looked up once for the family, in document 01's fixed table of the families.
fn test_row(year: &Year, scale: u64, p: Place, equal: bool, row: usize) -> Result<(), Refusal>
    requires { (p.year ≡ year.now.year) × ((p.kind < family_count) × ((Inside year.now.tested.case.now.plan.counts (family_of p.kind).set p.year p.first p.second p.slice) × ((equal ≡ (family_of p.kind).equal) × (row ≡ number (row_boxes year.now.tested.case.now.plan.counts) (index_of p))))) }
    ensures { result ≡ outcome (row_fault (data_of year.now.tested.case.now.tables) scale (entry_of year.now.tested.case.now.plan) (index_of p)) }
{
    let sides = row_sides(year, scale, p);
    verdict(sides, equal, row)
}

// Refusals 6 and 7.
// Document 01 names this form: nested loops, left by label with the row number at the first row not met. So that number is counted beside them.
#[tactic(auto, unfolding(sums::specs::Span::upto, sums::specs::Sum::sum), using(sums::proofs::Spans::upto_step))]
pub fn test_rows(tested: &TestedCase, scale: u64) -> Result<(), Refusal>
    ensures { result ≡ outcome (rows_fault (data_of tested.now.case.now.tables) scale (entry_of tested.now.case.now.plan)) }
{
    let mut answer = Ok(());
    let mut row = 0;
    'walk: for k in 0..FAMILY_COUNT {
        let f = family_at(k);
        let b = box_of(tested.case.plan.counts, f.set);
        for y in 0..b.years {
            let year = year_of(tested, y);
            for i in 0..b.firsts {
                for j in 0..b.seconds {
                    for s in 0..b.slices {
                        let p = Place {
                            kind: k,
                            year: y,
                            first: i,
                            second: j,
                            slice: s,
                        };
                        match test_row(&year, scale, p, f.equal, row) {
                            Ok(()) => row += 1,
                            Err(r) => {
                                answer = Err(r);
                                break 'walk;
                            }
                        }
                    }
                }
            }
        }
    }
    answer
}
