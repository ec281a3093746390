// The published calls: check, certify and post. Each takes any lists, and answers on every input. Its contract says the answer in document 01's
// number and values (`answer_code`, `certificate_code`), and as the `Result` that callers match on. Data, scale and plan, and post's year, board and start, are
// parameters and no struct: the C calls hand them over one by one, and nothing is known of them before the tests.
#![tactic(auto)]

ghost use Rattle.std.specs.Prelude.{◌≡◌};
ghost use Rattle.sums.specs.Span.{fine};
ghost use Rattle.model.specs.Tests.{data_fault};
ghost use Rattle.model.specs.Calls.{check as checkSpec, certify as certifySpec, post as postSpec, posted, answer_code, certificate_code};
ghost use Rattle.model.specs.Rival.{Binds};
ghost use Rattle.tables.specs.Lists.{data_of, entry_of};
ghost use Rattle.epm.specs.Answers.{rows_and_cost};

use boards::put_after;
use certificates::issue;
use data_tests::{lay_out, test_data};
use energy::totals::ENERGY_COUNT;
use energy_table::fill_energies;
use model::{Certificate, Refusal};
use plan_tests::{column_count, lay_out_plan, test_plan};
use prices::cost_of;
use row_tests::test_rows;
use rows::years::TestedCase;
use tables::lists::Case;

// Refusals 6, 7 and 8, and the cost. That the data passed is asked, of one caller: `TestedTables` holds a part of it, and a struct of it all would be made for
// this call.
// `scale` stands beside `case` and is no field of it: the rows alone read it, and the cost is Σ price·entry at every scale.
fn price(case: &Case, scale: u32) -> Result<u64, Refusal>
    requires { data_fault case.now.tables.list.now ≡ fine }
    ensures { result ≡ rows_and_cost (data_of case.now.tables) scale (entry_of case.now.plan) }
{
    let mut energy = [capped::keep(capped::zero()); ENERGY_COUNT];
    fill_energies(case, &mut energy);
    let tested = TestedCase {
        case: &*case,
        energy: &energy,
    };
    test_rows(&tested, u64::from(scale))?;
    cost_of(case).ok_or(Refusal::CostOffScale)
}

// check: data, N, plan; the cost, or the first refusal in the order of documents 01 and 02.
pub fn check(data: &[u32], scale: u32, plan: &[u32]) -> Result<u64, Refusal>
    ensures { (answer_code result ≡ answer_code (checkSpec «data».now scale plan.now))
        × (result ≡ checkSpec «data».now scale plan.now) }
{
    test_data(data)?;
    let tables = lay_out(data);
    test_plan(scale, plan.len(), column_count(tables.counts))?;
    let plan = lay_out_plan(plan, tables.counts);
    price(&Case { tables, plan }, scale)
}

// certify: data, N, plan, one multiplier for each row; cost and gap, or the first refusal in the order of documents 01 and 02.
// Demand 3 is the last part of its contract: an issued certificate binds every rival plan at every scale (`Binds`, model/specs/Rival.antt).
pub fn certify(
    data: &[u32],
    scale: u32,
    plan: &[u32],
    multipliers: &[i64],
) -> Result<Certificate, Refusal>
    ensures { (certificate_code result ≡ certificate_code (certifySpec «data».now scale plan.now multipliers.now))
        × ((result ≡ certifySpec «data».now scale plan.now multipliers.now) × Binds «data».now scale result) }
{
    let cost = check(data, scale, plan)?;
    issue(data, scale, multipliers, cost)
}

// post: after the tests of check the year's part of the gen table replaces the board's places from `start` on; on a refusal the board keeps all it held.
pub fn post(
    data: &[u32],
    scale: u32,
    plan: &[u32],
    year: usize,
    board: &mut [u32],
    start: usize,
) -> Result<u64, Refusal>
    ensures { (answer_code result ≡ answer_code (postSpec «data».now scale plan.now year board.old start))
        × ((result ≡ postSpec «data».now scale plan.now year board.old start)
        × (board.new ≡ posted «data».now scale plan.now year board.old start)) }
{
    let checked = check(data, scale, plan);
    put_after(checked, data, plan, year, board, start)
}
