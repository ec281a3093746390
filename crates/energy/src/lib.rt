// The plants' energy by year and season, and sums of it.
// An index is asked below its count: the reason stands beside `Inside` (tables/specs/Layout.antt).
#![tactic(auto)]

pub mod totals;
