// The test of the entries: refusal 3.
#![tactic(auto)]

ghost use Rattle.std.specs.Prelude.{◌≡◌};
ghost use Rattle.model.specs.Tests.{entries_fault};
ghost use Rattle.model.specs.Calls.{outcome};
ghost use Rattle.tables.specs.Lists.{data_of};

use model::{Refusal, TABLE_COUNT};
use ranges::{in_range, range_at};
use tables::lists::Tables;
use tables::starts::table_box;

// Refusal 3: every entry in the order of the list, left at the first that is out of range.
// No iterator over an index set: the range, which does not depend on the slice, is found between the loops, and the place is counted beside them.
// An iterator over the four indices would serve `constant_terms` (`gap`) alone: `test_rows` and `test_columns` find something between their loops too.
#[tactic(auto, unfolding(sums::specs::Span::upto, sums::specs::Sum::sum), using(sums::proofs::Spans::upto_step))]
pub fn test_entries(tables: &Tables) -> Result<(), Refusal>
    ensures { result ≡ outcome (entries_fault (data_of tables.now)) }
{
    let mut place = 7;
    for t in 0..TABLE_COUNT {
        let b = table_box(tables.counts, t);
        for y in 0..b.years {
            for i in 0..b.firsts {
                for j in 0..b.seconds {
                    let r = range_at(tables, t, i, j);
                    for s in 0..b.slices {
                        if !in_range(r, tables.list[place]) {
                            return Err(Refusal::Entry(place));
                        }
                        place += 1;
                    }
                }
            }
        }
    }
    Ok(())
}
