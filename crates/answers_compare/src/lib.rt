// `plan compare FILE FILE`: two sheets side by side, which of their numbers may be compared, and whether the second board is at least as good as the first in
// every point, so that they are proved not to rise. As in `answers`, g and h are the graphs of accepted files, t and u the bytes that gave them, with the
// names that they have.
#![tactic(auto)]

mod called;
mod side;

ghost use Rattle.graph.specs.Model.{AcceptedGraph};

use board::Names;
use graph::{Graph, Refusal};
use input::Failure;
use std::rt::{Env, Files};

// The arguments that name the files.
pub const FIRST: usize = 2;

pub const SECOND: usize = 3;

// The refusal of a graph file, and which of the two it is.
pub fn refused(rt: &impl Env, k: usize, r: Refusal) -> Failure {
    let which = if k == FIRST {
        say::out::refused(r) & say::out::argument(rt, k) & say::out::text(b": the first file\n")
    } else {
        say::out::refused(r) & say::out::argument(rt, k) & say::out::text(b": the second file\n")
    };
    input::no(which)
}

fn with(t: &[u8], names: Names, g: Graph, u: &[u8], other: Names, h: Graph) -> Result<(), Failure>
    requires accepted_graph { AcceptedGraph g }
    requires accepted_graph_2 { AcceptedGraph h }
{
    let first = second::of_graph(g).ok();
    let then = second::of_graph(h).ok();
    let both = first.is_some() & then.is_some();
    let counts = side::counts(g, h);
    let figures = side::figures(bounds::figures(g), bounds::figures(h), first, then);
    let lines = counts & figures & side::comparable(both);
    let found = called::first_fault(t, names, u, other, boards::worse(g, h));
    input::answer(lines & side::promise(t, names, u, other, h, found, both))
}

fn taken(
    rt: &impl Env,
    t: &[u8],
    names: Names,
    g: Graph,
    u: &[u8],
    other: Names,
    file: &[u8],
) -> Result<(), Failure>
    requires { AcceptedGraph g }
{
    match reader::read(file) {
        Err(r) => Err(refused(rt, SECOND, r)),
        Ok(h) => with(t, names, g, u, other, h),
    }
}

fn judged(rt: &impl Env, t: &[u8], names: Names, g: Graph, u: &[u8]) -> Result<(), Failure>
    requires { AcceptedGraph g }
{
    let mut room = [0u8; 9304];
    let made = input::given::file(rt, SECOND, u, false, &mut room)?;
    let other = made.names;
    taken(rt, t, names, g, u, other, texts::part(&room, 0, made.n))
}

// The first file against the one that argument 3 names.
pub fn answer(
    rt: &(impl Env + Files + Input),
    t: &[u8],
    names: Names,
    g: Graph,
) -> Result<(), Failure>
    requires { AcceptedGraph g }
{
    let mut space = [0u8; 65537];
    let n = input::read(rt, SECOND, &mut space)?;
    judged(rt, t, names, g, texts::part(&space, 0, n))
}
