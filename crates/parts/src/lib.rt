// What rows, columns, constants, energies and posting read in common: the calendar of the slices, the minimum-load days, and the year's parts of the gen,
// reserve, charge and level tables.
// An index is asked below its count: the reason stands beside `Inside` (tables/specs/Layout.antt).
#![tactic(auto)]

pub mod board;
pub mod slices;
pub mod years;
