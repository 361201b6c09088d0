// The largest sum that ends at each vertex.
ghost use Rattle.std.specs.Prelude.{◌≡◌, false, ◌+◌, ◌<◌, get_or, length};
ghost use Rattle.model.specs.Places.{pick};
ghost use Rattle.graph.specs.declared.Graph.{Graph};
ghost use Rattle.graph.specs.Model.{as_model};
ghost use Rattle.paths.specs.Ahead.{weigh, Weighed};
ghost use Rattle.summary.specs.Row as row;
ghost use Rattle.summary.specs.Tables.{Ends, EndsBut};

use super::row::{many, nth};

// The sum of u, made of what it was told and its own weight where it is marked.
fn sum(weight: &[u64; 128], mark: &[bool; 128], sums: &[u64; 128], u: usize) -> u64
    requires u_bound { u < 128 }
    requires u_bound_2 { get_or sums.now u 0 + weigh weight.now u < 18446744073709551616 }
    ensures { result ≡ pick (get_or mark.now u false) (get_or sums.now u 0 + weigh weight.now u) (get_or sums.now u 0) }
{
    if mark[u] {
        sums[u] + weight[u]
    } else {
        sums[u]
    }
}

// Each edge of u raises what stands for the vertex that it goes to.
fn tell(edge: &[u16; 1024], start: &[u16; 129], u: usize, sum: u64, sums: &mut [u64; 128])
    requires row { row.Row edge.now start.now u }
    requires sums_len { length sums.old ≡ 128 }
    ensures { row.Told edge.now start.now (λ x. sum) u (row.many start.now u) sums.old sums.new }
{
    for k in 0..many(start, u) {
        let x = nth(edge, start, u, k);
        sums[x] = sums[x].max(sum);
    }
}

// The sums of the marked vertices, made from the others' and from their own weights. One pass along the order, from its first vertex to its last:
// the predecessors of a vertex stand before it, so when its turn comes the largest of their sums stands for it, and its own weight is added.
pub(crate) fn ending(
    edge: &[u16; 1024],
    start: &[u16; 129],
    order: &[u8; 128],
    n: usize,
    weight: &[u64; 128],
    mark: &[bool; 128],
    sums: &mut [u64; 128],
)
    requires { (g : Graph) × Weighed g edge.now start.now order.now n weight.now × EndsBut (as_model g) (weigh weight.now) mark.now sums.old }
    ensures { (g : Graph) → Weighed g edge.now start.now order.now n weight.now → EndsBut (as_model g) (weigh weight.now) mark.now sums.old → Ends (as_model g) (weigh weight.now) sums.new }
{
    for j in 0..n {
        let u = order[j] as usize;
        let own = sum(weight, mark, sums, u);
        sums[u] = own;
        tell(edge, start, u, own, sums);
    }
}
