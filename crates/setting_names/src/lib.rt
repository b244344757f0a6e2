// Whether no two records of a settings store have one name (02, S-12), without comparing all pairs: a table that gives a record for a name. Where it
// gives each record back for its own name, the names differ, however it was filled; so nothing is promised of filling it.

#![tactic(auto)]

mod differ;
mod table;

pub use differ::names_differ;
