// A line for each edge, in the file's order.
use crate::places;
use graph::Graph;
use say::out;

// Whether places of two stages are those of neighbours on the path.
fn is_next(first: Option<usize>, then: Option<usize>) -> bool {
    match (first, then) {
        (Some(i), Some(j)) => i < j && j - i == 1,
        _ => false,
    }
}

fn thickness(first: Option<usize>, then: Option<usize>) -> bool {
    if is_next(first, then) {
        return out::text(b" [penwidth=4]");
    }
    true
}

fn line(edge: u16, place: &[Option<usize>; 128]) -> bool {
    let u = (edge / 256) as usize;
    let v = (edge % 256) as usize;
    let ends = out::text(b"  n")
        & out::number(u as u64)
        & out::text(b" -> n")
        & out::number(v as u64);
    ends & thickness(places::of(place, u), places::of(place, v)) & out::text(b";\n")
}

pub(crate) fn lines(g: Graph, place: &[Option<usize>; 128]) -> bool {
    let mut written = true;
    for edge in g.edge.iter().take(g.edges) {
        written &= line(*edge, place);
    }
    written
}
