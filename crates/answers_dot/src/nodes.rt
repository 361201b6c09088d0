// A node for each stage: a box in its type's colour that says its name, its type and WCET, and what a rewrite of it would gain.
ghost use Rattle.std.specs.Prelude.{◌<◌};

use crate::colours;
use board::Names;
use graph::Graph;
use say::{names, out};
use units::Parts;

// A name; where there is none, a letter and the number.
fn called(name: &[u8], letter: &[u8], i: usize) -> bool {
    if !name.is_empty() {
        return quoted::dot::text(name);
    }
    out::text(letter) & out::number(i as u64)
}

fn stage(t: &[u8], of: Names, v: usize) -> bool {
    called(names::of_stage(t, of, v), b"s", v)
}

fn kind(t: &[u8], of: Names, k: usize) -> bool {
    called(names::of_kind(t, of, k), b"t", k)
}

// What the box says, with the gain in whole ticks.
fn label(t: &[u8], of: Names, v: usize, k: usize, wcet: u32, gain: u64) -> bool {
    let ticks = Parts(gain).ticks();
    let name = out::text(b" [label=\"") & stage(t, of, v) & out::text(b"\\n");
    let own = kind(t, of, k) & out::field(wcet as u64);
    name & own & out::text(b"\\ngain ") & out::number(ticks.0) & out::text(b"\"")
}

// What it says to one who points at it: the gain as exact as it is. No name, since graphviz (2.43) reads the backslashes of a tooltip twice.
fn tooltip(gain: u64) -> bool {
    out::text(b", tooltip=\"gain ") & out::number(gain) & out::text(b" parts\"")
}

fn thickness(place: Option<usize>) -> bool {
    if place.is_none() {
        return true;
    }
    out::text(b", penwidth=4")
}

fn look(k: usize, place: Option<usize>) -> bool {
    let colour = out::text(b", fillcolor=\"") & colours::of_kind(k) & out::text(b"\"");
    colour & thickness(place) & out::text(b"];\n")
}

fn node(t: &[u8], of: Names, g: &Graph, v: usize, place: Option<usize>, gain: u64) -> bool
    requires { v < 128 }
{
    let k = g.kind[v] as usize;
    let number = out::text(b"  n") & out::number(v as u64);
    let said = label(t, of, v, k, g.wcet[v], gain) & tooltip(gain);
    number & said & look(k, place)
}

pub(crate) fn lines(
    t: &[u8],
    of: Names,
    g: Graph,
    place: &[Option<usize>; 128],
    gain: &[u64; 128],
) -> bool {
    let mut written = true;
    for v in 0..g.n.min(128) {
        written &= node(t, of, &g, v, place[v], gain[v]);
    }
    written
}
