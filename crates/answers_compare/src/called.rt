// The names of two board texts. Order 11's theorems go by the numbers of types and stages; where both files have names these have to agree too, so that
// nobody compares stages that only stand at the same place.
use board::Names;
use boards::Point;

// What `boards` says of the two, or a name: a type that has another one, a stage that has.
#[derive(Clone, Copy)]
pub(crate) enum Difference {
    Board(Point),
    KindName(usize),
    StageName(usize),
}

// The first type whose names differ.
fn kind_renamed(t: &[u8], names: Names, u: &[u8], other: Names) -> Option<usize> {
    (0..names.kinds.min(10)).find(|k| {
        !texts::equal(
            say::names::of_kind(t, names, *k),
            say::names::of_kind(u, other, *k),
        )
    })
}

fn stage_renamed(t: &[u8], names: Names, u: &[u8], other: Names) -> Option<usize> {
    (0..names.stages.min(128)).find(|v| {
        !texts::equal(
            say::names::of_stage(t, names, *v),
            say::names::of_stage(u, other, *v),
        )
    })
}

// The first point in which the second board is not as good, its names looked at once there are as many types and stages.
pub(crate) fn first_fault(t: &[u8], names: Names, u: &[u8], other: Names, p: Point) -> Difference {
    if matches!(p, Point::Kinds | Point::Stages) | (names.stages == 0) | (other.stages == 0) {
        return Difference::Board(p);
    }
    if let Some(k) = kind_renamed(t, names, u, other) {
        return Difference::KindName(k);
    }
    if let Some(v) = stage_renamed(t, names, u, other) {
        return Difference::StageName(v);
    }
    Difference::Board(p)
}
