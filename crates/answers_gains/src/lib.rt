// `plan gains FILE [STAGE WCET]`: what a rewrite of each stage would gain, the largest gain first. As in `answers`, g is the graph of an accepted file, t
// the bytes that gave it, with the names that they have.
#![tactic(auto)]

ghost use Rattle.std.specs.Prelude.{◌≤◌};
ghost use Rattle.graph.specs.Model.{AcceptedGraph};

use board::Names;
use faults::Wrong;
use graph::{Graph, Refusal};
use input::{Failure, word};
use std::rt::Env;

// The arguments that name the stage and its new WCET.
const STAGE: usize = 3;

const WCET: usize = 4;

// The gains of n vertices.
fn listed(t: &[u8], names: Names, gain: &[u64; 128], n: usize) -> Result<(), Failure>
    requires { n ≤ 128 }
{
    let list = ranks::ranking(gain, n);
    input::answer(say::gains::lines(t, names, texts::part(&list, 0, n), gain))
}

// The gains at every stage's WCET.
pub fn full(t: &[u8], names: Names, g: Graph) -> Result<(), Failure>
    requires { AcceptedGraph g }
{
    let gain = gains::table(g);
    listed(t, names, &gain, g.n)
}

// What the planner's refusal is about: a stage that the graph doesn't have, at 0, or else a WCET above the limit, at the stage's record.
fn reason(stage: &[u8], r: Refusal) -> bool {
    if r.place == 0 {
        return reasons::fault::said_argument(b"STAGE", Wrong::Absent, stage);
    }
    reasons::fault::said_argument(b"WCET", Wrong::Wcet, stage)
}

// The gains of a file of n vertices with the WCET of one altered, which the argument `stage` names.
fn answer(
    t: &[u8],
    names: Names,
    file: &[u8],
    n: usize,
    stage: &[u8],
    vertex: u32,
    time: u32,
) -> Result<(), Failure>
    requires { n ≤ 128 }
{
    let mut gain = [0u64; 128];
    let gained = gains::gains_altered(file, vertex, time, &mut gain);
    match gained {
        Ok(_) => listed(t, names, &gain, n),
        Err(r) => {
            let first = say::out::refused(r);
            Err(input::no(first & reason(stage, r)))
        }
    }
}

// The same of what both arguments say.
fn with_words(
    t: &[u8],
    names: Names,
    g: Graph,
    file: &[u8],
    stage: &[u8],
    wcet: &[u8],
) -> Result<(), Failure>
    requires { AcceptedGraph g }
{
    let v = match word::named(t, &names.stage, names.stages, stage) {
        Ok(v) => v,
        Err(what) => return Err(input::no(reasons::fault::said_argument(b"STAGE", what, stage))),
    };
    let time = match word::number(wcet) {
        Ok(time) => time,
        Err(what) => return Err(input::no(reasons::fault::said_argument(b"WCET", what, wcet))),
    };
    answer(t, names, file, g.n, stage, v, time)
}

// The gains with the WCET of one stage altered.
pub fn altered(rt: &impl Env, t: &[u8], names: Names, g: Graph, file: &[u8]) -> Result<(), Failure>
    requires { AcceptedGraph g }
{
    let mut stage = io::buffer();
    let mut wcet = io::buffer();
    let s = input::argument(rt, STAGE, &mut stage);
    let w = input::argument(rt, WCET, &mut wcet);
    let (Some(s), Some(w)) = (s, w) else {
        return Err(input::wrong(b"STAGE and WCET have at most 4096 bytes"));
    };
    with_words(
        t,
        names,
        g,
        file,
        texts::part(&stage, 0, s),
        texts::part(&wcet, 0, w),
    )
}
