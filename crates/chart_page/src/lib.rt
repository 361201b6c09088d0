// What an SVG picture of a run is made of, whatever the run: its elements, its page, its axis of ticks, and what a stage or a type is called in it. Every
// function that writes answers whether the system took all of it: no contract can say that, or what was written.
#![tactic(auto)]

pub mod axis;
pub mod called;
pub mod element;
pub mod page;
