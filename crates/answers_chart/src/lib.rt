// `plan chart FILE [TIMES | LOG]`: a picture of a run, or of a recorded frame (docs/PICTURES.md). As in `answers`, g is the graph of an accepted file, t the bytes
// that gave it, with the names that they have.
#![tactic(auto)]

ghost use Rattle.graph.specs.Model.{AcceptedGraph};
ghost use Rattle.recorded.specs.Log.{InForm};

use board::Names;
use chart::{Origin, Told};
use graph::{Graph, Refusal};
use input::Failure;
use std::io::Input;
use std::rt::{Env, Files};

// The argument that names the times or the log.
const GIVEN: usize = 3;

fn told(g: Graph, origin: Origin, refusal: Option<Refusal>) -> Told
    requires { AcceptedGraph g }
{
    Told {
        origin,
        refusal,
        new: bounds::figures(g).ticks.0,
        second: second::of_graph(g).ok().map(|parts| parts.ticks().0),
    }
}

// What the rules from 19 on say of a log in form.
fn judged(file: &[u8], log: &[u8]) -> Option<Refusal> {
    let mut times = [0u32; 128];
    replay::replay(file, log, &mut times).err()
}

fn drawn(
    t: &[u8],
    names: Names,
    g: Graph,
    log: &[u8],
    origin: Origin,
    refusal: Option<Refusal>,
) -> Result<(), Failure>
    requires { AcceptedGraph g × InForm g.n log.now }
{
    let mut path = [0u8; 128];
    let n = answers::sheet::found(g, &mut path);
    let told = told(g, origin, refusal);
    let written = chart::picture(t, names, g, log, texts::part(&path, 0, n), told);
    match refusal {
        None => input::answer(written),
        Some(_) => Err(input::no(written)),
    }
}

// A log that is not in form can't be drawn.
fn shown(
    rt: &impl Env,
    t: &[u8],
    names: Names,
    g: Graph,
    file: &[u8],
    log: &[u8],
    origin: Origin,
) -> Result<(), Failure>
    requires { AcceptedGraph g }
{
    match formed::judge(log, g.n) {
        Err(r) => Err(answers_runs::frame::refused(rt, log, t, names, g.n, r)),
        Ok(()) => drawn(t, names, g, log, origin, judged(file, log)),
    }
}

// The run at every stage's WCET. A run of 128 stages has 256 records at the most.
pub fn full(rt: &impl Env, t: &[u8], names: Names, g: Graph, file: &[u8]) -> Result<(), Failure>
    requires { AcceptedGraph g }
{
    let mut room = [0u8; 2048];
    let n = answers_runs::frame::at_wcets(rt, t, g, file, &mut room)?;
    shown(rt, t, names, g, file, texts::part(&room, 0, n), Origin::Run)
}

fn timed(
    rt: &impl Env,
    t: &[u8],
    names: Names,
    g: Graph,
    file: &[u8],
    said: &[u8],
) -> Result<(), Failure>
    requires { AcceptedGraph g }
{
    let mut room = [0u8; 2048];
    let n = answers_runs::frame::with_text(rt, t, names, g, file, said, &mut room)?;
    shown(
        rt,
        t,
        names,
        g,
        file,
        texts::part(&room, 0, n),
        Origin::Timed,
    )
}

// Whether bytes are a text: a record of a log has two bytes 0, and an empty log has none.
fn is_text(said: &[u8]) -> bool {
    !said.is_empty() && !said.contains(&0)
}

// The run at the times, or the log, that argument 3 names.
pub fn given(
    rt: &(impl Env + Files + Input),
    t: &[u8],
    names: Names,
    g: Graph,
    file: &[u8],
) -> Result<(), Failure>
    requires { AcceptedGraph g }
{
    let mut space = [0u8; 65537];
    let n = input::read(rt, GIVEN, &mut space)?;
    let said = texts::part(&space, 0, n);
    if is_text(said) {
        return timed(rt, t, names, g, file, said);
    }
    shown(rt, t, names, g, file, said, Origin::Frame)
}
