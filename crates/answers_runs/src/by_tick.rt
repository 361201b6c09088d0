// `plan late FILE TIMES D`: whether the run at the times of a text ends by tick D, and how many ticks of it were played to see that. No is no answer that a
// release script goes on with, so that its exit status is 1.
use crate::run;
use crate::run::{TIMES, Times};
use board::Names;
use graph::Graph;
use input::{Failure, word};
use std::rt::{Env, Files};

// The argument that is the tick.
const D: usize = 4;

fn answer(
    rt: &impl Env,
    stages: usize,
    file: &[u8],
    said: &[u8],
    times: Times,
    d: u32,
) -> Result<(), Failure> {
    match late::late(file, times.ticks(), d) {
        Err(r) => {
            let first = say::out::refused(r);
            Err(input::no(first & run::reason(rt, said, times, stages, r)))
        }
        Ok(told) => {
            let written = say::run::late(told.yes, told.played.0);
            if told.yes {
                input::answer(written)
            } else {
                Err(input::no(written))
            }
        }
    }
}

// The times are looked at before the tick.
fn with_words(
    rt: &impl Env,
    t: &[u8],
    names: Names,
    g: Graph,
    file: &[u8],
    said: &[u8],
    tick: &[u8],
) -> Result<(), Failure> {
    let times = run::given(rt, said, t, names, g)?;
    let d = match word::number(tick) {
        Ok(d) => d,
        Err(what) => return Err(input::no(reasons::fault::said_argument(b"D", what, tick))),
    };
    answer(rt, g.n, file, said, times, d)
}

pub fn timed(
    rt: &(impl Env + Files + Input),
    t: &[u8],
    names: Names,
    g: Graph,
    file: &[u8],
) -> Result<(), Failure> {
    let mut space = [0u8; 65537];
    let n = input::read(rt, TIMES, &mut space)?;
    let mut tick = io::buffer();
    let Some(d) = input::argument(rt, D, &mut tick) else {
        return Err(input::wrong(b"D has at most 4096 bytes"));
    };
    with_words(
        rt,
        t,
        names,
        g,
        file,
        texts::part(&space, 0, n),
        texts::part(&tick, 0, d),
    )
}
