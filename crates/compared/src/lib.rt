// What is read off capped sums: their order, and what is left of them.
#![tactic(auto)]

ghost use Rattle.std.specs.Prelude.{◌≡◌};
ghost use Rattle.capped.specs.Cap.{cap};
ghost use Rattle.compared.specs.Compared.{order, net_of};

use capped::{LIMIT, Sum};
use std::cmp::Ordering;

// Why there is no number where one sum is taken from others: it would be below zero, or one of them is above the limit.
#[derive(Clone, Copy, Debug, PartialEq, Eq)]
pub enum NoBalance {
    BelowZero,
    Unsure,
}

// What is left when one sum is taken from others. It may be above the limit.
pub type Balance = Result<u64, NoBalance>;

// By number where both are exact; an exact sum is less than one that is over. No `PartialOrd`: by `Option`'s, None is least and equals itself, and of two sums
// that are over nothing is known.
#[tactic(auto, unfolding(crate::specs::Compared::order))]
pub fn compare(s: Sum, t: Sum) -> Option<Ordering>
    ensures { result ≡ order s t }
{
    match (s, t) {
        (Some(v), Some(w)) => Some(v.cmp(&w)),
        (Some(_), None) => Some(Ordering::Less),
        (None, Some(_)) => Some(Ordering::Greater),
        (None, None) => None,
    }
}

#[tactic(auto, unfolding(capped::specs::Cap::limit), using(crate::proofs::Laws::unsure_subtract, crate::proofs::Laws::sure_subtract))]
fn subtract(a: u64, b: u64, c: u64) -> Balance
    ensures { result ≡ net_of (Some a) (Some b) (Some c) }
{
    // With both at most the limit, `a + b` cannot wrap. No function of `capped` makes an exact sum above the limit, but a caller can.
    if a > LIMIT || b > LIMIT {
        return Err(NoBalance::Unsure);
    }
    let total = a + b;
    total.checked_sub(c).ok_or(NoBalance::BelowZero)
}

// a + b - c, where all three are exact. The sum of two exact sums is held even where it is above the limit.
#[tactic(auto, unfolding(crate::specs::Compared::net_of))]
pub fn net(a: Sum, b: Sum, c: Sum) -> Balance
    ensures { result ≡ net_of a b c }
{
    let (Some(x), Some(y), Some(z)) = (a, b, c) else {
        return Err(NoBalance::Unsure);
    };
    subtract(x, y, z)
}

// s - t
pub fn difference(s: Sum, t: Sum) -> Balance
    ensures { result ≡ net_of s (cap 0) t }
{
    net(s, capped::zero(), t)
}
