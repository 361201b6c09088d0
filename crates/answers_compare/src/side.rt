// The numbers of two sheets, which of them may be compared, and what is promised. OLD-B may rise where hardware is better, so that it is never among them.
use crate::called::Difference;
use board::Names;
use boards::Point;
use bounds::BothBounds;
use graph::Graph;
use say::{names, out};
use starts::{from, to};
use units::Parts;

fn figure(name: &[u8], a: u64, b: u64) -> bool {
    out::text(name) & out::field(a) & out::field(b) & out::end()
}

pub(crate) fn counts(g: Graph, h: Graph) -> bool {
    let kinds = figure(b"types", g.kinds as u64, h.kinds as u64);
    let stages = figure(b"stages", g.n as u64, h.n as u64);
    kinds & stages & figure(b"edges", g.edges as u64, h.edges as u64)
}

// NEW-B-2, where there is one.
fn second_field(second: Option<Parts>) -> bool {
    match second {
        Some(parts) => out::field(parts.0),
        None => out::text(b" none"),
    }
}

pub(crate) fn figures(
    a: BothBounds,
    b: BothBounds,
    first: Option<Parts>,
    then: Option<Parts>,
) -> bool {
    let old = figure(b"old", a.old.0, b.old.0) & figure(b"new", a.new.0, b.new.0);
    let second = out::text(b"second") & second_field(first) & second_field(then) & out::end();
    old & second & figure(b"ticks", a.ticks.0, b.ticks.0)
}

// `second` only where both graphs have one.
pub(crate) fn comparable(both: bool) -> bool {
    if both {
        return out::text(b"compare new second ticks\n");
    }
    out::text(b"compare new ticks\n")
}

fn quoted(name: &[u8]) -> bool {
    out::text(b"\"") & out::text(name) & out::text(b"\"")
}

// A name of the first file's; of the second's where that has none; else the number.
fn named(first: &[u8], then: &[u8], i: usize) -> bool {
    if first.len() > 0 {
        return quoted(first);
    }
    if then.len() > 0 {
        return quoted(then);
    }
    out::number(i as u64)
}

fn kind(t: &[u8], of: Names, u: &[u8], other: Names, k: usize) -> bool {
    out::text(b"type ") & named(names::of_kind(t, of, k), names::of_kind(u, other, k), k)
}

fn stage(t: &[u8], of: Names, u: &[u8], other: Names, v: usize) -> bool {
    out::text(b"stage ") & named(names::of_stage(t, of, v), names::of_stage(u, other, v), v)
}

fn edge_of(h: Graph, i: usize) -> u16 {
    if i < 1024 { h.edge[i] } else { 0 }
}

fn waits(t: &[u8], of: Names, u: &[u8], other: Names, edge: u16) -> bool {
    let first = stage(t, of, u, other, to(edge)) & out::text(b" waits for ");
    first & stage(t, of, u, other, from(edge))
}

fn called(name: &[u8]) -> bool {
    out::text(b" is called ") & quoted(name)
}

// The first point that fails.
fn fault(t: &[u8], of: Names, u: &[u8], other: Names, h: Graph, d: Difference) -> bool {
    match d {
        Difference::Board(p) => point(t, of, u, other, h, p),
        Difference::KindName(k) => {
            kind(t, of, u, other, k) & called(names::of_kind(u, other, k))
        }
        Difference::StageName(v) => {
            stage(t, of, u, other, v) & called(names::of_stage(u, other, v))
        }
    }
}

fn point(t: &[u8], of: Names, u: &[u8], other: Names, h: Graph, p: Point) -> bool {
    match p {
        Point::Kinds => out::text(b"another number of types"),
        Point::Stages => out::text(b"another number of stages"),
        Point::Cores(k) => kind(t, of, u, other, k) & out::text(b" has fewer cores"),
        Point::Kind(v) => stage(t, of, u, other, v) & out::text(b" has another type"),
        Point::Wcet(v) => stage(t, of, u, other, v) & out::text(b" has a larger WCET"),
        Point::Edge(i) => waits(t, of, u, other, edge_of(h, i)),
        // Of these something is promised.
        Point::AsGood | Point::FewerEdges => true,
    }
}

// What is proved of these two boards.
pub(crate) fn promise(
    t: &[u8],
    of: Names,
    u: &[u8],
    other: Names,
    h: Graph,
    d: Difference,
    both: bool,
) -> bool {
    match d {
        Difference::Board(Point::AsGood) if both => {
            out::text(b"promise: new, second and ticks do not rise\n")
        }
        Difference::Board(Point::FewerEdges) if both => out::text(
            b"promise: new and ticks do not rise; second may, as there are fewer edges\n",
        ),
        Difference::Board(Point::AsGood | Point::FewerEdges) => {
            out::text(b"promise: new and ticks do not rise\n")
        }
        _ => out::text(b"no promise: ") & fault(t, of, u, other, h, d) & out::end(),
    }
}
