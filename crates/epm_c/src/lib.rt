// The calls for C and Rust. Each slice passes as a pointer and a length; `out` takes an answer's two figures.
// The C interface (include/epm.h) asks for it: a number comes back in place of a `Result`, the lists are parameters, and the figures go into `out`.
#![tactic(auto)]

ghost use Rattle.std.specs.Prelude.{◌≡◌, ◌<◌, ◌≤◌, length};
ghost use Rattle.model.specs.Calls.{check, certify, post, posted, answer_code, certificate_code};
ghost use Rattle.epm_c.specs.Exports.{status, written, board_of, BindsOut};

use codes::{answer_code, certificate_code};
use exports::put;

// What a call returns where `out` has no room for two figures; no refusal has this number.
const NO_ROOM: u32 = 255;

// 0 with the cost in out[0], or the refusal's number with its place there; out[1] is 0. 255 where `out` is shorter than 2, with nothing written.
#[unsafe(no_mangle)]
#[tactic(auto, unfolding(crate::specs::Exports::status, crate::specs::Exports::written))]
pub extern "C" fn epm_check(data: &[u32], scale: u32, plan: &[u32], out: &mut [u64]) -> u32
    ensures { (result ≡ status (length out.old) (answer_code (check «data».now scale plan.now)))
        × (out.new ≡ written out.old (answer_code (check «data».now scale plan.now))) }
{
    if out.len() < 2 {
        return NO_ROOM;
    }
    put(out, answer_code(epm::check(data, scale, plan)))
}

// 0 with the cost in out[0] and the gap in out[1]; else as epm_check.
// Demand 3 is the last part of its contract: where 0 comes back, these two figures bind every rival plan.
#[unsafe(no_mangle)]
#[tactic(auto, unfolding(crate::specs::Exports::status, crate::specs::Exports::written))]
pub extern "C" fn epm_certify(
    data: &[u32],
    scale: u32,
    plan: &[u32],
    multipliers: &[i64],
    out: &mut [u64],
) -> u32
    ensures { (result ≡ status (length out.old) (certificate_code (certify «data».now scale plan.now multipliers.now)))
        × ((out.new ≡ written out.old (certificate_code (certify «data».now scale plan.now multipliers.now)))
        × BindsOut «data».now scale result out.new) }
{
    if out.len() < 2 {
        return NO_ROOM;
    }
    put(
        out,
        certificate_code(epm::certify(data, scale, plan, multipliers)),
    )
}

// The same answers, and the board as post leaves it; where `out` is too short the board is not written either.
#[unsafe(no_mangle)]
#[tactic(auto, unfolding(crate::specs::Exports::status, crate::specs::Exports::written, crate::specs::Exports::board_of))]
pub extern "C" fn epm_post(
    data: &[u32],
    scale: u32,
    plan: &[u32],
    year: usize,
    board: &mut [u32],
    start: usize,
    out: &mut [u64],
) -> u32
    ensures { (result ≡ status (length out.old) (answer_code (post «data».now scale plan.now year board.old start)))
        × ((out.new ≡ written out.old (answer_code (post «data».now scale plan.now year board.old start)))
        × (board.new ≡ board_of (length out.old) board.old (posted «data».now scale plan.now year board.old start))) }
{
    if out.len() < 2 {
        return NO_ROOM;
    }
    put(
        out,
        answer_code(epm::post(data, scale, plan, year, board, start)),
    )
}
