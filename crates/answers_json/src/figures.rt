// The members of the object that are numbers: the counts and the bounds.
use bounds::BothBounds;
use graph::Graph;
use say::json::member;
use say::out;
use units::Parts;

pub(crate) fn counts(g: Graph) -> bool {
    let kinds = member(b"{\n  \"counts\": {\"types\": ", g.kinds as u64);
    let stages = member(b", \"stages\": ", g.n as u64);
    kinds & stages & member(b", \"edges\": ", g.edges as u64) & out::text(b"},")
}

// Parts, and the whole ticks in them.
pub(crate) fn amount(before: &[u8], parts: u64) -> bool {
    let ticks = Parts(parts).ticks();
    member(before, parts) & member(b", \"ticks\": ", ticks.0) & out::text(b"}")
}

// NEW-B-2, or null where there is none.
fn second_of(second: Option<Parts>) -> bool {
    match second {
        Some(parts) => amount(b",\n    \"second\": {\"parts\": ", parts.0),
        None => out::text(b",\n    \"second\": null"),
    }
}

pub(crate) fn bounds_of(b: BothBounds, second: Option<Parts>) -> bool {
    let old = amount(b"\n  \"bounds\": {\n    \"old\": {\"parts\": ", b.old.0);
    let new = amount(b",\n    \"new\": {\"parts\": ", b.new.0);
    old & new & second_of(second) & out::text(b"\n  },")
}
