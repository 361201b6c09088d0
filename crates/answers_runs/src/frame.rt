// `plan replay FILE LOG`: the finish of a recorded frame, and how long each stage took. `plan log FILE [TIMES]`: the log of a run.
use crate::run::{TIMES, Times};
use crate::{run, stage_times};
use board::Names;
use graph::{Graph, Refusal};
use input::Failure;
use std::rt::{Env, Files};

// The argument that names the log.
const LOG: usize = 3;

// A log that is refused is of the graph, and says no; the stage that it says no to is called as the answers call it.
pub fn refused(
    rt: &impl Env,
    log: &[u8],
    t: &[u8],
    names: Names,
    stages: usize,
    r: Refusal,
) -> Failure {
    let first = say::out::refused(r);
    input::no(first & reasons::log::of_log(rt, LOG, log, t, names, stages, r))
}

pub fn replayed(
    rt: &(impl Env + Files + Input),
    t: &[u8],
    names: Names,
    g: Graph,
    file: &[u8],
) -> Result<(), Failure> {
    let mut space = [0u8; 65537];
    let n = input::read(rt, LOG, &mut space)?;
    let log = texts::part(&space, 0, n);
    let mut list = [0u32; 128];
    let answer = replay::replay(file, log, &mut list);
    match answer {
        Ok(f) => { input::answer(say::run::lines(t, names, f.0, &list[..g.n.min(128)])) }
        Err(r) => Err(refused(rt, log, t, names, g.n, r)),
    }
}

// The log of the run with the times that the text `said` gave, laid in a room: its length.
fn logged(
    rt: &impl Env,
    stages: usize,
    file: &[u8],
    said: &[u8],
    times: Times,
    room: &mut [u8],
) -> Result<usize, Failure> {
    let wrote = logs::log(file, times.ticks(), room);
    match wrote {
        Ok(n) => Ok(n),
        Err(r) => {
            let first = say::out::refused(r);
            Err(input::no(first & run::reason(rt, said, times, stages, r)))
        }
    }
}

// The log of the run at the times of a text.
pub fn with_text(
    rt: &impl Env,
    t: &[u8],
    names: Names,
    g: Graph,
    file: &[u8],
    said: &[u8],
    room: &mut [u8],
) -> Result<usize, Failure> {
    let times = run::given(rt, said, t, names, g)?;
    logged(rt, g.n, file, said, times, room)
}

// The log of the run at every stage's WCET.
pub fn at_wcets(
    rt: &impl Env,
    t: &[u8],
    g: Graph,
    file: &[u8],
    room: &mut [u8],
) -> Result<usize, Failure> {
    logged(rt, g.n, file, t, stage_times::full(g), room)
}

fn said(log: &[u8]) -> Result<(), Failure> {
    input::answer(say::out::text(log))
}

// The log of the run at the times that argument 3 names. A run of 128 stages has 256 records at the most.
pub fn timed(
    rt: &(impl Env + Files + Input),
    t: &[u8],
    names: Names,
    g: Graph,
    file: &[u8],
) -> Result<(), Failure> {
    let mut space = [0u8; 65537];
    let read = input::read(rt, TIMES, &mut space)?;
    let mut room = [0u8; 2048];
    let text = texts::part(&space, 0, read);
    let n = with_text(rt, t, names, g, file, text, &mut room)?;
    said(texts::part(&room, 0, n))
}

pub fn full(rt: &impl Env, t: &[u8], g: Graph, file: &[u8]) -> Result<(), Failure> {
    let mut room = [0u8; 2048];
    let n = at_wcets(rt, t, g, file, &mut room)?;
    said(texts::part(&room, 0, n))
}
