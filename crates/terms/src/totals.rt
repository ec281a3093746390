// Sums of terms, whatever the term: capped, or of so few and small numbers that a word holds them; and a term under a test.
ghost use Rattle.std.specs.Prelude.{◌≡◌, ℕ, ◌*◌, ◌≤◌, ◌<◌};
ghost use Rattle.capped.specs.Cap.{cap, Sum};
ghost use Rattle.sums.specs.Sum.{sum, on};
ghost use Rattle.model.specs.Data.{most32};

use capped::Sum;

// Two functions: `total` caps and takes any term, `exact_total` needs bounds and gives a number.

// Σ term(i) over the i below n: where each term is the capped sum of a number f i, it is that of Σ f.
pub fn total<F: Fn(usize) -> Sum>(n: usize, term: F) -> Sum
    requires { (i : ℕ) → i < n → F.pre term i }
    ensures { (f : ℕ → ℕ) → ((i : ℕ) (r : Sum) → i < n → F.post term i r → r ≡ cap (f i)) → result ≡ cap (sum n f) }
{
    (0..n).map(term).fold(capped::zero(), capped::join)
}

// The same of up to 2^32 - 1 numbers, each up to 2^32 - 1: a word holds their sum.
pub fn exact_total<F: Fn(usize) -> u64>(n: usize, term: F) -> u64
    requires few { n ≤ most32 }
    requires callable { (i : ℕ) → i < n → F.pre term i }
    requires small { (i r : ℕ) → i < n → F.post term i r → r ≤ most32 }
    ensures value { (f : ℕ → ℕ) → ((i r : ℕ) → i < n → F.post term i r → r ≡ f i) → result ≡ sum n f }
    ensures bound { result ≤ n * most32 }
{
    (0..n).map(term).sum()
}

// A product where a test holds, else 0.
// The test is the condition under a sum (`on` of the definitions), and no switch: a closure that chooses a product or 0 takes five lines for this call.
// Not by `capped::add_product_if`: a term alone would be written as a sum onto 0, with a comparison with the limit that a product does not need.
pub fn product_if(test: bool, a: u64, b: u64) -> Sum
    ensures { result ≡ cap (on test (a * b)) }
{
    if test {
        return capped::product(a, b);
    }
    capped::zero()
}
