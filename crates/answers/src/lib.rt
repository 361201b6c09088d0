// What the sheet and the texts of an accepted file are: g is its graph, t the bytes that gave it, with the names that they have. There is
// no answer where the system took less than all of it: no contract can say it.
#![tactic(auto)]

pub mod sheet;
pub mod text;
