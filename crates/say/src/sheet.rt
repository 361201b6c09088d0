// The sheet, and the path by names.
use crate::{names, out};
use board::Names;
use bounds::BothBounds;
use graph::Graph;
use units::Parts;

fn figure(name: &[u8], n: u64) -> bool {
    out::text(name) & out::field(n) & out::end()
}

fn counts(g: Graph) -> bool {
    let kinds = out::text(b"graph") & out::field(g.kinds as u64);
    kinds & out::field(g.n as u64) & out::field(g.edges as u64) & out::end()
}

// NEW-B-2, or that there is none.
fn second_line(second: Option<Parts>) -> bool {
    match second {
        Some(parts) => figure(b"second", parts.0),
        None => out::text(b"second none\n"),
    }
}

fn figures(b: BothBounds, second: Option<Parts>) -> bool {
    let both = figure(b"old", b.old.0) & figure(b"new", b.new.0);
    both & second_line(second) & figure(b"ticks", b.ticks.0)
}

// A name and vertices.
fn row(name: &[u8], list: &[u8]) -> bool {
    let mut written = out::text(name);
    for &v in list {
        written &= out::field(u64::from(v));
    }
    written & out::end()
}

// The sheet: the bounds of a graph, the graph, its path, and its vertices by gain.
pub fn lines(b: BothBounds, second: Option<Parts>, g: Graph, path: &[u8], ranking: &[u8]) -> bool {
    counts(g) & figures(b, second) & row(b"path", path) & row(b"gains", ranking)
}

// The type of a stage.
fn kind_of(g: Graph, v: usize) -> usize {
    g.kind.get(v).map_or(0, |&k| usize::from(k))
}

// How wide the names of the path's stages are, and how wide those of their types.
fn stages_width(t: &[u8], of: Names, path: &[u8]) -> usize {
    let widths = path
        .iter()
        .map(|&v| names::of_stage(t, of, usize::from(v)).len());
    widths.max().unwrap_or(0)
}

fn kinds_width(t: &[u8], of: Names, g: Graph, path: &[u8]) -> usize {
    let widths = path.iter().map(|&v| names::of_kind(t, of, kind_of(g, usize::from(v))).len());
    widths.max().unwrap_or(0)
}

// A name, blanks up to a width, and two more.
fn padded(name: &[u8], width: usize) -> bool {
    let blanks = b"                                                                  ";
    let left = width.saturating_sub(name.len());
    let end = if left < 64 { left + 2 } else { 2 };
    out::text(name) & out::text(texts::part(blanks, 0, end))
}

fn wcet_of(g: Graph, v: usize) -> u64 {
    g.wcet.get(v).map_or(0, |&ticks| u64::from(ticks))
}

// A stage of the path: its name, its type and its WCET.
fn stage(t: &[u8], of: Names, g: Graph, v: usize, first: usize, second: usize) -> bool {
    let name = padded(names::of_stage(t, of, v), first);
    let kind = padded(names::of_kind(t, of, kind_of(g, v)), second);
    name & kind & out::number(wcet_of(g, v)) & out::end()
}

// An empty line, and a line for each stage of the path.
pub fn table(t: &[u8], of: Names, g: Graph, path: &[u8]) -> bool {
    let first = stages_width(t, of, path);
    let second = kinds_width(t, of, g, path);
    let mut written = out::end();
    for &v in path {
        written &= stage(t, of, g, usize::from(v), first, second);
    }
    written
}
