// What post does after check: refusal 14, and the year's outputs on the board.
// `check` answers a cost and no tables, as document 01 has its answer; so the lists come bare, with what its tests showed: the counts are read again, and the
// plan is laid out again.
// Data, plan, year, board and start are parameters and no struct: the C call of post hands them over one by one.
#![tactic(auto)]

ghost use Rattle.std.specs.Prelude.{◌≡◌, ℕ, length, Ok};
ghost use Rattle.sums.specs.Span.{fine};
ghost use Rattle.sums.specs.Index.{count};
ghost use Rattle.model.specs.Data.{read};
ghost use Rattle.model.specs.Columns.{column_boxes};
ghost use Rattle.model.specs.Tests.{data_fault, board_fault};
ghost use Rattle.model.specs.Calls.{answer, board_after, replaced, year_outputs};
ghost use Rattle.boards.specs.Boards.{after, board_after_check};

use data_tests::counts_of;
use model::Refusal;
use parts::board::replace;
use parts::years::plan_part;
use plan_tests::{board_fits, lay_out_plan};
use tables::names::GEN;
use tables::sets::slices_of;

// Refusal 14, or the year's outputs on the board.
fn put_year(
    data: &[u32],
    plan: &[u32],
    year: usize,
    board: &mut [u32],
    start: usize,
    cost: u64,
) -> Result<u64, Refusal>
    requires { (data_fault «data».now ≡ fine) × (length plan.now ≡ count (column_boxes (read «data».now).counts)) }
    ensures { (result ≡ answer (board_fault (read «data».now) year (length board.old) start) cost)
        × (board.new ≡ board_after (board_fault (read «data».now) year (length board.old) start) board.old
        (replaced board.old start (year_outputs (read «data».now) plan.now year))) }
{
    let counts = counts_of(data);
    let places = counts.plants * slices_of(counts);
    if !board_fits(counts.years, year, board.len(), start, places) {
        return Err(Refusal::Board);
    }
    let plan = lay_out_plan(plan, counts);
    replace(board, start, plan_part(&plan, GEN, year));
    Ok(cost)
}

// Once check has answered: what it refused leaves the board alone, what it accepted goes by refusal 14.
pub fn put_after(
    checked: Result<u64, Refusal>,
    data: &[u32],
    plan: &[u32],
    year: usize,
    board: &mut [u32],
    start: usize,
) -> Result<u64, Refusal>
    requires { (cost : ℕ) → checked ≡ Ok cost → (data_fault «data».now ≡ fine) × (length plan.now ≡ count (column_boxes (read «data».now).counts)) }
    ensures { (result ≡ after checked (board_fault (read «data».now) year (length board.old) start))
        × (board.new ≡ board_after_check checked (board_fault (read «data».now) year (length board.old) start) board.old
        (replaced board.old start (year_outputs (read «data».now) plan.now year))) }
{
    let cost = checked?;
    put_year(data, plan, year, board, start, cost)
}
