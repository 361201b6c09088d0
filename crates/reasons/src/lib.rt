// What a text or a log gets wrong and which line of a board text a refusal is about, and how it is said. Whether it could be written no contract can say.
#![tactic(auto)]

pub mod fault;
pub mod log;

ghost use Rattle.std.specs.Prelude.{◌<◌};

use board::Names;
use faults::Wrong;
use graph::Refusal;
use std::rt::Env;

fn from(edge: u16) -> usize
    ensures { result < 128 }
{
    usize::from(edge / 256 % 128)
}

fn to(edge: u16) -> usize
    ensures { result < 128 }
{
    usize::from(edge % 128)
}

// Marks where each edge from v, and from what is marked, leads; whether any mark is new.
fn sweep(edge: &[u16; 1024], n: usize, v: usize, marks: &mut [bool; 128]) -> bool {
    let mut grown = false;
    for &edge in edge.iter().take(n) {
        let u = from(edge);
        let w = to(edge);
        if ((u == v) | marks[u]) & !marks[w] {
            marks[w] = true;
            grown = true;
        }
    }
    grown
}

// Whether edges lead from v back to v.
fn comes_back(edge: &[u16; 1024], n: usize, v: usize) -> bool {
    let mut marks = [false; 128];
    for _ in 0..128 {
        if !sweep(edge, n, v, &mut marks) {
            return marks[v % 128];
        }
    }
    marks[v % 128]
}

// The first stage that lies on a cycle.
fn on_cycle(edge: &[u16; 1024], n: usize) -> usize {
    (0..128).find(|&v| comes_back(edge, n, v)).unwrap_or(0)
}

// The stage that the edge i leads to.
fn waiting(edge: &[u16; 1024], i: usize) -> usize {
    edge.get(i).map_or(0, |&edge| to(edge))
}

// The line of the text, which argument k names, that the writer's refusal of its n edges and its other lists is about. No other number can be: the
// text's own faults come first.
pub fn said(
    rt: &impl Env,
    k: usize,
    t: &[u8],
    names: Names,
    edge: &[u16; 1024],
    n: usize,
    r: Refusal,
) -> bool {
    let number = r.number;
    let record = r.place as usize;
    let stage = record.saturating_sub(names.kinds);
    match number {
        4 => fault::said(rt, k, t, Wrong::KindsNone, t.len(), t.len()),
        5 => fault::said_kind(rt, k, t, names, Wrong::Cores, record),
        6 => fault::said(rt, k, t, Wrong::StagesNone, t.len(), t.len()),
        7 => fault::said_stage(rt, k, t, names, Wrong::Wcet, stage),
        9 => fault::said_stage(
            rt,
            k,
            t,
            names,
            Wrong::Itself,
            waiting(edge, stage.saturating_sub(names.stages)),
        ),
        _ => fault::said_stage(rt, k, t, names, Wrong::Cycle, on_cycle(edge, n)),
    }
}
