// The largest sum that starts at each vertex.
ghost use Rattle.std.specs.Prelude.{◌≡◌, false, ◌+◌, ◌<◌, get_or};
ghost use Rattle.model.specs.Places.{pick};
ghost use Rattle.graph.specs.declared.Graph.{Graph};
ghost use Rattle.graph.specs.Model.{as_model};
ghost use Rattle.paths.specs.Ahead.{weigh, Weighed};
ghost use Rattle.summary.specs.Row as row;
ghost use Rattle.summary.specs.Tables.{Starts, StartsBut};

use super::row::{many, nth};

// The largest of the successors' sums, or 0 where there are none.
fn most(edge: &[u16; 1024], start: &[u16; 129], sums: &[u64; 128], u: usize) -> u64
    requires { row.Row edge.now start.now u }
    ensures { result ≡ row.most_over edge.now start.now sums.now u (row.many start.now u) }
{
    let mut most: u64 = 0;
    for k in 0..many(start, u) {
        most = most.max(sums[nth(edge, start, u, k)]);
    }
    most
}

// The sum of u, made from its successors' where it is marked.
fn sum(
    edge: &[u16; 1024],
    start: &[u16; 129],
    weight: &[u64; 128],
    mark: &[bool; 128],
    sums: &[u64; 128],
    u: usize,
) -> u64
    requires row { row.Row edge.now start.now u }
    requires u_bound { weigh weight.now u + row.most_over edge.now start.now sums.now u (row.many start.now u) < 18446744073709551616 }
    ensures { result ≡ pick (get_or mark.now u false) (weigh weight.now u + row.most_over edge.now start.now sums.now u (row.many start.now u)) (get_or sums.now u 0) }
{
    if mark[u] {
        weight[u] + most(edge, start, sums, u)
    } else {
        sums[u]
    }
}

// The sums of the marked vertices, made from the others' and from their own weights. One pass along the order, from its last vertex to its first:
// the successors of a vertex stand after it, so their sums are done before its own.
pub(crate) fn starting(
    edge: &[u16; 1024],
    start: &[u16; 129],
    order: &[u8; 128],
    n: usize,
    weight: &[u64; 128],
    mark: &[bool; 128],
    sums: &mut [u64; 128],
)
    requires { (g : Graph) × Weighed g edge.now start.now order.now n weight.now × StartsBut (as_model g) (weigh weight.now) mark.now sums.old }
    ensures { (g : Graph) → Weighed g edge.now start.now order.now n weight.now → StartsBut (as_model g) (weigh weight.now) mark.now sums.old → Starts (as_model g) (weigh weight.now) sums.new }
{
    for j in (0..n).rev() {
        let u = order[j] as usize;
        sums[u] = sum(edge, start, weight, mark, sums, u);
    }
}
