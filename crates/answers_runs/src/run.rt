// `plan run FILE [TIMES]`: the finish, and each stage's finish instant.
use crate::stage_times;
use board::Names;
use faults::Wrong;
use graph::{Graph, Refusal};
use input::Failure;
use std::rt::{Env, Files};

// The argument that names the times.
pub(crate) const TIMES: usize = 3;

// So many times, and where in their text each one starts and ends. A graph has 128 stages at most: of more times only that there are more matters.
#[derive(Clone, Copy)]
pub(crate) struct Times {
    pub n: usize,
    pub ticks: [u32; 129],
    pub start: [usize; 129],
    pub end: [usize; 129],
}

impl Times {
    pub(crate) fn ticks(&self) -> &[u32] {
        &self.ticks[..self.n.min(129)]
    }
}

// What the text of times has wrong where they are refused.
pub(crate) fn reason(rt: &impl Env, said: &[u8], times: Times, stages: usize, r: Refusal) -> bool {
    if r.number != 14 {
        return reasons::fault::counted(rt, TIMES, times.n, stages);
    }
    let v = (r.place % 128) as usize;
    reasons::fault::said(rt, TIMES, said, Wrong::Time, times.start[v], times.end[v])
}

// The run of a file of so many stages, with times that the text `said` gave.
fn answer(
    rt: &impl Env,
    t: &[u8],
    names: Names,
    stages: usize,
    file: &[u8],
    said: &[u8],
    times: Times,
) -> Result<(), Failure> {
    let mut list = [0u32; 128];
    let played = schedule::run(file, times.ticks(), &mut list);
    match played {
        Ok(f) => { input::answer(say::run::lines(t, names, f.0, &list[..stages.min(128)])) }
        Err(r) => {
            let first = say::out::refused(r);
            Err(input::no(first & reason(rt, said, times, stages, r)))
        }
    }
}

// The times of a text.
pub(crate) fn given(
    rt: &impl Env,
    said: &[u8],
    t: &[u8],
    names: Names,
    g: Graph,
) -> Result<Times, Failure> {
    match stage_times::of(said, t, names, g) {
        Ok(times) => Ok(times),
        Err(f) => Err(input::no(reasons::fault::of_text(rt, TIMES, said, f))),
    }
}

// The run at the times of a text.
fn with_text(
    rt: &impl Env,
    t: &[u8],
    names: Names,
    g: Graph,
    file: &[u8],
    said: &[u8],
) -> Result<(), Failure> {
    let times = given(rt, said, t, names, g)?;
    answer(rt, t, names, g.n, file, said, times)
}

// The run at the times that argument 3 names.
pub fn timed(
    rt: &(impl Env + Files + Input),
    t: &[u8],
    names: Names,
    g: Graph,
    file: &[u8],
) -> Result<(), Failure> {
    let mut space = [0u8; 65537];
    let n = input::read(rt, TIMES, &mut space)?;
    with_text(rt, t, names, g, file, texts::part(&space, 0, n))
}

// The run at every stage's WCET.
pub fn full(rt: &impl Env, t: &[u8], names: Names, g: Graph, file: &[u8]) -> Result<(), Failure> {
    answer(rt, t, names, g.n, file, t, stage_times::full(g))
}
