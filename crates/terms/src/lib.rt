// Sums that rows and prices are made of: of any terms, over the plants of a zone, and over years. Those over linked zones are in `links` and `link_limits`.
// An index is asked below its count: the reason stands beside `Inside` (tables/specs/Layout.antt).
#![tactic(auto)]

pub mod plants;
pub mod totals;
pub mod years;
