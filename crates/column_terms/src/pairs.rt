// The two sums of a column, made term by term: a column reads as the chain of its rows.
// That there is a row of a family's number and four indices (`RowAt`) is asked: the reason stands beside `Inside` (tables/specs/Layout.antt).
ghost use Rattle.std.specs.Prelude.{◌≡◌, true, List, ℕ, ◌<◌, ℤ};
ghost use Rattle.sums.specs.Index.{index};
ghost use Rattle.sums.specs.Linear.{Linear, ∑};
ghost use Rattle.model.specs.declared.Counts.{Counts};
ghost use Rattle.column_terms.specs.declared.Pair.{Pair};
ghost use Rattle.column_terms.specs.Pairs.{RowAt, no_terms, joined, added, taken, added_if, taken_if, row_multiplier, pair_of};

use crate::Pair;
use duals::{Multiplier, Multipliers};
use sums::Place;

impl Pair {
    #[tactic(auto, unfolding(crate::specs::Pairs::no_terms))]
    pub fn none() -> Pair
        ensures { result ≡ no_terms }
    {
        Pair {
            up: capped::zero(),
            down: capped::zero(),
        }
    }

    #[tactic(auto, unfolding(crate::specs::Pairs::joined))]
    pub fn join(self, more: Pair) -> Pair
        ensures { result ≡ joined self more }
    {
        Pair {
            up: capped::join(self.up, more.up),
            down: capped::join(self.down, more.down),
        }
    }

    // The terms of n groups of rows: where those of each group i are the rows with the coefficients a i and −b i, it is the pair of all of them.
    pub fn total<F: Fn(usize) -> Pair>(n: usize, terms: F) -> Pair
        requires { (i : ℕ) → i < n → F.pre terms i }
        ensures { (c : Counts) (ms : List ℤ) (a b : ℕ → Linear) → ((i : ℕ) (r : Pair) → i < n → F.post terms i r → r ≡ pair_of c ms (a i) (b i)) → result ≡ pair_of c ms (∑ n a) (∑ n b) }
    {
        (0..n).map(terms).fold(Pair::none(), Pair::join)
    }

    // A term with the coefficient a.
    #[tactic(auto, unfolding(crate::specs::Pairs::added))]
    pub fn add(self, a: u64, m: Multiplier) -> Pair
        ensures { result ≡ added self a m }
    {
        Pair {
            up: capped::add_product(self.up, a, m.up),
            down: capped::add_product(self.down, a, m.down),
        }
    }

    // A term with the coefficient −a: (−a)·m is a·(−m).
    #[tactic(auto, unfolding(crate::specs::Pairs::added, crate::specs::Pairs::taken))]
    pub fn take(self, a: u64, m: Multiplier) -> Pair
        ensures { result ≡ taken self a m }
    {
        self.add(a, m.negated())
    }

    // The term of row y, i, j, s of family k, in which the column has the coefficient a. Inlined at each use, with `Multipliers::at`, so that the family is
    // a constant there: without the hints the walk over the columns took half as long again.
    // Family and indices are no `Place`, here and in the three methods below: the document writes a row's family and indices in one line, as `index` of the
    // definitions takes them. With a constructor of a place each line would have one call more and say the same.
    // Two methods, `add_row` and `take_row`: the method's name is the sign of the term on the page. A sign handed in would be a switch.
    #[inline(always)]
    pub fn add_row(
        self,
        a: u64,
        multipliers: &Multipliers,
        k: usize,
        y: usize,
        i: usize,
        j: usize,
        s: usize,
    ) -> Pair
        requires { RowAt multipliers.now.counts k y i j s }
        ensures { result ≡ added self a (row_multiplier multipliers.now.counts multipliers.now.list.now (index k y i j s)) }
    {
        self.add(a, row_multiplier(multipliers, k, y, i, j, s))
    }

    // The term of a row in which the column has the coefficient −a.
    #[inline(always)]
    pub fn take_row(
        self,
        a: u64,
        multipliers: &Multipliers,
        k: usize,
        y: usize,
        i: usize,
        j: usize,
        s: usize,
    ) -> Pair
        requires { RowAt multipliers.now.counts k y i j s }
        ensures { result ≡ taken self a (row_multiplier multipliers.now.counts multipliers.now.list.now (index k y i j s)) }
    {
        self.take(a, row_multiplier(multipliers, k, y, i, j, s))
    }

    // The same where a test holds; where it does not, there need not be such a row. The test is a flag in the row's line, as the document has its condition:
    // a closure would choose no step better, and an `if` around the line would break the chain.
    #[inline(always)]
    #[tactic(auto, unfolding(crate::specs::Pairs::added_if))]
    pub fn add_row_if(
        self,
        on: bool,
        a: u64,
        multipliers: &Multipliers,
        k: usize,
        y: usize,
        i: usize,
        j: usize,
        s: usize,
    ) -> Pair
        requires { on ≡ true → RowAt multipliers.now.counts k y i j s }
        ensures { result ≡ added_if on self a (row_multiplier multipliers.now.counts multipliers.now.list.now (index k y i j s)) }
    {
        if on {
            return self.add_row(a, multipliers, k, y, i, j, s);
        }
        self
    }

    #[inline(always)]
    #[tactic(auto, unfolding(crate::specs::Pairs::taken_if))]
    pub fn take_row_if(
        self,
        on: bool,
        a: u64,
        multipliers: &Multipliers,
        k: usize,
        y: usize,
        i: usize,
        j: usize,
        s: usize,
    ) -> Pair
        requires { on ≡ true → RowAt multipliers.now.counts k y i j s }
        ensures { result ≡ taken_if on self a (row_multiplier multipliers.now.counts multipliers.now.list.now (index k y i j s)) }
    {
        if on {
            return self.take_row(a, multipliers, k, y, i, j, s);
        }
        self
    }
}

// The multiplier of row y, i, j, s of family k.
#[inline(always)]
#[tactic(auto, unfolding(crate::specs::Pairs::row_multiplier))]
fn row_multiplier(
    multipliers: &Multipliers,
    k: usize,
    y: usize,
    i: usize,
    j: usize,
    s: usize,
) -> Multiplier
    requires { RowAt multipliers.now.counts k y i j s }
    ensures { result ≡ row_multiplier multipliers.now.counts multipliers.now.list.now (index k y i j s) }
{
    multipliers.at(Place {
        kind: k,
        year: y,
        first: i,
        second: j,
        slice: s,
    })
}
