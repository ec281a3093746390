// The tests that certify makes after check's: of the multipliers, of the columns and of the gap, refusals 9 to 13.
#![tactic(auto)]

ghost use Rattle.std.specs.Prelude.{◌≡◌, ◌≤◌};
ghost use Rattle.capped.specs.Cap.{limit};
ghost use Rattle.sums.specs.Span.{fine};
ghost use Rattle.model.specs.Data.{read};
ghost use Rattle.model.specs.Tests.{data_fault, dual_fault, gap};
ghost use Rattle.model.specs.Calls.{certificate};

use data_tests::lay_out;
use duals::{Pricing, lay_out_multipliers, test_multipliers};
use gap::gap_of;
use model::{Certificate, Refusal};
use pricing::test_columns;
use tables::lists::TestedTables;
use tables::sets::shape_of;

// Refusals 9 to 13 beside a cost that check answered, or the certificate.
// `check` answers a cost and no tables, as document 01 has its answer; so the list comes bare, with what its tests showed, and the tables are laid out again.
pub fn issue<'a>(
    data: &'a [u32],
    scale: u32,
    multipliers: &'a [i64],
    cost: u64,
) -> Result<Certificate, Refusal>
    requires { (data_fault «data».now ≡ fine) × (cost ≤ limit) }
    ensures { result ≡ certificate (dual_fault (read «data».now) multipliers.now scale) cost (gap (read «data».now) multipliers.now scale cost) }
{
    let tables = lay_out(data);
    // Matched and not handed on by `?`: an edit changes the refusal alone then, and the proof still fits.
    match test_multipliers(multipliers, shape_of(tables.counts)) {
        Ok(()) => {}
        Err(r) => return Err(r), // 9 or 10
    }
    let multipliers = lay_out_multipliers(multipliers, tables.counts);
    let pricing = Pricing {
        tested: TestedTables { tables: &tables },
        multipliers,
    };
    test_columns(&pricing)?; // 11 or 12
    gap_of(&pricing, u64::from(scale), cost)
}
