// The verdicts on a row and on a column, from its two sums: off scale, not met, or fine. The walks over all rows and columns are in `row_tests` and `pricing`.
#![tactic(auto)]

pub mod columns;
pub mod rows;
