// What a run of an accepted file answers, whole, by a tick or as a log, and what a board's log does: g is the graph, t the bytes that gave it, with
// the names that they have. There is no answer where the system took less than all of it: no contract can say it.
#![tactic(auto)]

pub mod by_tick;
pub mod frame;
pub mod run;
mod stage_times;
