// What the command `plan` says on standard output. Every function answers whether the system took all that it wrote: no contract can say that, or what was
// written. The answers are joined by `&`, since what follows is written all the same; and by bytes, since a name need not be UTF-8, which std's formatting takes.
#![tactic(auto)]

pub mod gains;
pub mod help;
pub mod json;
pub mod names;
pub mod out;
pub mod run;
pub mod sheet;
pub mod text;
