// The summary: each vertex's largest sum ending there and largest starting there, the vertex itself in both. For each of the two, one function
// makes the sums of marked vertices: of all of them, or of those that a changed weight touches.
#![tactic(auto)]

ghost use Rattle.graph.specs.declared.Graph.{Graph};
ghost use Rattle.graph.specs.Model.{as_model};
ghost use Rattle.paths.specs.Ahead.{Weighed};
ghost use Rattle.summary.specs.Tables.{Tables, Altering};

use ending::ending;
use marks::{ahead, behind, clear};
use starting::starting;

mod ending; // ending.rt: the sums that end at each vertex
mod marks; // marks.rt: which sums a changed weight touches
pub mod row; // row.rt: the edges of one vertex
mod starting; // starting.rt: the sums that start at each vertex

#[derive(Clone, Copy)]
pub struct Summary {
    pub ending: [u64; 128],
    pub starting: [u64; 128],
}

// All are marked.
pub fn afresh(
    edge: &[u16; 1024],
    start: &[u16; 129],
    order: &[u8; 128],
    n: usize,
    weight: &[u64; 128],
) -> Summary
    requires { (g : Graph) × Weighed g edge.now start.now order.now n weight.now }
    ensures { (g : Graph) → Weighed g edge.now start.now order.now n weight.now → Tables (as_model g) weight.now result }
{
    let all = [true; 128];
    let mut summary = Summary {
        ending: [0u64; 128],
        starting: [0u64; 128],
    };
    ending(edge, start, order, n, weight, &all, &mut summary.ending);
    starting(edge, start, order, n, weight, &all, &mut summary.starting);
    summary
}

// The summary after the weight of v has changed: the sums that this touches are made again, and no others.
pub fn altered(
    edge: &[u16; 1024],
    start: &[u16; 129],
    order: &[u8; 128],
    n: usize,
    weight: &[u64; 128],
    old: Summary,
    v: usize,
) -> Summary
    requires { (g : Graph) × Altering g edge.now start.now order.now n weight.now old v }
    ensures { (g : Graph) → Altering g edge.now start.now order.now n weight.now old v → Tables (as_model g) weight.now result }
{
    let mut summary = old;
    let after = ahead(edge, start, order, n, v);
    clear(&after, n, &mut summary.ending);
    ending(edge, start, order, n, weight, &after, &mut summary.ending);
    let before = behind(edge, start, order, n, v);
    starting(
        edge,
        start,
        order,
        n,
        weight,
        &before,
        &mut summary.starting,
    );
    summary
}
