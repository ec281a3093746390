// The lists that a caller hands over, read by table and index: index sets, starts of tables, and entries.
#![tactic(auto)]

pub mod families;
pub mod lists;
pub mod names;
pub mod plants;
pub mod sets;
pub mod starts;
