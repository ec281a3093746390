// An answer's number and two figures, as the calls for C and Rust hand them back.
#![tactic(auto)]

ghost use Rattle.std.specs.Prelude.{◌≡◌, ◌≤◌, length};
ghost use Rattle.exports.specs.Figures.{figures};

use model::Code;

// The two figures of a code, and its number: the C interface (include/epm.h) has the figures written and the number returned, in place of a `Code`.
#[tactic(auto, unfolding(crate::specs::Figures::figures))]
pub fn put(out: &mut [u64], code: Code) -> u32
    requires { 2 ≤ length out.old }
    ensures { (result ≡ code.number) × (out.new ≡ figures out.old code) }
{
    out[0] = code.first;
    out[1] = code.second;
    code.number
}
