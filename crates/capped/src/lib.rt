// Capped sums: a sum of natural numbers that is exact up to 2^62 - 1, or known to be above it.
//
// The crates above add to a `Sum` by the functions below, and compare two by those of `compared`.
// Each function says its result by one equation over `specs/Cap.antt`, for every input; `proofs/Laws.antt` has the laws that callers cite.
#![tactic(auto)]

ghost use Rattle.std.specs.Prelude.{◌≡◌, ◌&&◌, ◌+◌, ◌*◌, leb};
ghost use Rattle.lengths.specs.Length.{bit_length};
ghost use Rattle.capped.specs.Cap.{half, straight, cap, plus, plus_if, both, times, times_both, kept_as, kept_sum};

// The largest total that a capped sum holds, 2^62 - 1: `limit` in the specs.
pub const LIMIT: u64 = 0x3fff_ffff_ffff_ffff;

// Factors whose lengths in bits add up to this or less have a product of at most 2^62 - 1: `straight` in the specs.
const STRAIGHT: u32 = 62;

// The largest number of half as many bits: `half` in the specs.
const HALF: u64 = 0x7fff_ffff;

// The bits of a word.
const WORD: u32 = 64;

// The exact sum, or none where it is above the limit.
pub type Sum = Option<u64>;

// A sum as an array stores it: in one word, where a `Sum` takes two. Its form is known to this crate alone: `keep` makes one, `sum_kept` reads the sum back.
pub type Kept = [u64; 1];

pub fn zero() -> Sum
    ensures { result ≡ cap 0 }
{
    Some(0)
}

pub fn of(n: u64) -> Sum
    ensures { result ≡ cap n }
{
    if n > LIMIT {
        return None;
    }
    Some(n)
}

pub fn add(s: Sum, n: u64) -> Sum
    ensures { result ≡ plus s n }
{
    of(s?.checked_add(n)?)
}

// The sum of two sums.
pub fn join(s: Sum, t: Sum) -> Sum
    ensures { result ≡ both s t }
{
    add(s, t?)
}

// Whether two factors are so small that their lengths add up to 62 or less, whatever they are: each at most HALF.
fn both_small(a: u64, b: u64) -> bool
    ensures { result ≡ (leb a half && leb b half) }
{
    a <= HALF && b <= HALF
}

// Whether the lengths of two factors in bits add up to 62 or less. Most factors are small, and of these no length is asked for.
fn lengths_fit(a: u64, b: u64) -> bool
    ensures { result ≡ leb (bit_length a + bit_length b) straight }
{
    both_small(a, b) || lengths::together(a, b) <= STRAIGHT
}

// Every product is made here, and none needs a division: one whose factors' lengths say that it is at most 2^62 - 1 is taken straight.
pub fn product(a: u64, b: u64) -> Sum
    ensures { result ≡ cap (a * b) }
{
    if lengths_fit(a, b) {
        return Some(a * b);
    }
    long_product(a, b)
}

// Two lengths that add up to 64 or less leave a product that a word holds, and `of` compares it with the limit.
// With more it is above the limit: one length alone is at most 64, so neither factor is 0.
// Not by the library's `checked_mul`, which divides: request (iii) leaves these lengths open, and no product here needs a division (docs/DECISIONS.md).
fn long_product(a: u64, b: u64) -> Sum
    ensures { result ≡ cap (a * b) }
{
    if lengths::together(a, b) <= WORD {
        return of(a * b);
    }
    None
}

// `n` times a sum. A zero factor gives 0, also of a sum that is over.
pub fn scale(s: Sum, n: u64) -> Sum
    ensures { result ≡ times s n }
{
    if n == 0 {
        return Some(0);
    }
    product(s?, n)
}

// The product of two sums. A factor of 0 gives 0, also where the other is over.
pub fn multiply(s: Sum, t: Sum) -> Sum
    ensures { result ≡ times_both s t }
{
    match t {
        Some(n) => scale(s, n),
        None => scale(t, s?),
    }
}

// `n` times a sum, added to another.
pub fn add_multiple(s: Sum, t: Sum, n: u64) -> Sum
    ensures { result ≡ both s (times t n) }
{
    join(s, scale(t, n))
}

pub fn add_product(s: Sum, a: u64, b: u64) -> Sum
    ensures { result ≡ plus s (a * b) }
{
    join(s, product(a, b))
}

// `a * b` may be over and `c` 0: then nothing is added.
pub fn add_product3(s: Sum, a: u64, b: u64, c: u64) -> Sum
    ensures { result ≡ plus s (a * b * c) }
{
    join(s, scale(product(a, b), c))
}

// A sum that is over is kept as one more than the limit, which no exact sum is.
#[tactic(auto, unfolding(crate::specs::Cap::kept_as, crate::specs::Cap::limit))]
pub fn keep(s: Sum) -> Kept
    ensures { result ≡ kept_as s }
{
    match s {
        Some(v) => [v],
        None => [LIMIT + 1],
    }
}

#[tactic(auto, unfolding(crate::specs::Cap::kept_sum))]
pub fn sum_kept(k: Kept) -> Sum
    ensures { result ≡ kept_sum k }
{
    of(k[0])
}

// A product added where a test holds. Whether it is added is no step that a closure would choose better, and a loop with this call has one way through.
pub fn add_product_if(on: bool, s: Sum, a: u64, b: u64) -> Sum
    ensures { result ≡ plus_if on s (a * b) }
{
    if on {
        return add_product(s, a, b);
    }
    s
}

// The same of three factors. No crate calls it today; it is public, and its promise stands.
pub fn add_product3_if(on: bool, s: Sum, a: u64, b: u64, c: u64) -> Sum
    ensures { result ≡ plus_if on s (a * b * c) }
{
    if on {
        return add_product3(s, a, b, c);
    }
    s
}
