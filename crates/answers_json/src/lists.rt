// The members of the object that are lists: the path, the gains, the types and the stages, an object to a line.
use crate::figures;
use board::Names;
use graph::Graph;
use say::json::member;
use say::{names, out};

// What parts the i-th element of a list from what stands before it.
fn next(i: usize) -> bool {
    if i == 0 {
        return out::text(b"\n    ");
    }
    out::text(b",\n    ")
}

// How the i-th element of a list begins: a stage or a type by its number and its name.
fn called(i: usize, before: &[u8], number: usize, name: &[u8]) -> bool {
    let first = next(i) & member(before, number as u64);
    first & out::text(b", \"name\": ") & quoted::json::name(name)
}

fn of_stage(t: &[u8], of: Names, i: usize, v: usize) -> bool {
    called(i, b"{\"stage\": ", v, names::of_stage(t, of, v))
}

fn on_path(t: &[u8], of: Names, i: usize, v: usize) -> bool {
    of_stage(t, of, i, v) & out::text(b"}")
}

pub(crate) fn path(t: &[u8], of: Names, path: &[u8]) -> bool {
    let mut written = out::text(b"\n  \"path\": [");
    for (i, v) in path.iter().enumerate() {
        written &= on_path(t, of, i, *v as usize);
    }
    written & out::text(b"\n  ],")
}

// A stage and what a rewrite of it would gain.
fn gained(t: &[u8], of: Names, i: usize, v: usize, gain: &[u64; 128]) -> bool {
    let parts = if v < 128 { gain[v] } else { 0 };
    of_stage(t, of, i, v) & figures::amount(b", \"parts\": ", parts)
}

pub(crate) fn gains(t: &[u8], of: Names, list: &[u8], gain: &[u64; 128]) -> bool {
    let mut written = out::text(b"\n  \"gains\": [");
    for (i, v) in list.iter().enumerate() {
        written &= gained(t, of, i, *v as usize, gain);
    }
    written & out::text(b"\n  ],")
}

fn kind(t: &[u8], of: Names, k: usize, cores: u8) -> bool {
    let name = called(k, b"{\"type\": ", k, names::of_kind(t, of, k));
    name & member(b", \"cores\": ", cores as u64) & out::text(b"}")
}

pub(crate) fn kinds(t: &[u8], of: Names, g: Graph) -> bool {
    let mut written = out::text(b"\n  \"types\": [");
    for (k, cores) in g.cores.iter().enumerate().take(g.kinds) {
        written &= kind(t, of, k, *cores);
    }
    written & out::text(b"\n  ],")
}

fn stage(t: &[u8], of: Names, v: usize, kind: u8, wcet: u32) -> bool {
    let kind = of_stage(t, of, v, v) & member(b", \"type\": ", kind as u64);
    kind & member(b", \"wcet\": ", wcet as u64) & out::text(b"}")
}

pub(crate) fn stages(t: &[u8], of: Names, g: Graph) -> bool {
    let mut written = out::text(b"\n  \"stages\": [");
    for (v, (kind, wcet)) in g.kind.iter().zip(&g.wcet).enumerate().take(g.n) {
        written &= stage(t, of, v, *kind, *wcet);
    }
    written & out::text(b"\n  ]")
}
