// The largest sum of weights that lies ahead of each vertex on a path to a sink, and where the longest path begins. One function for any
// weights: a path's sum is always the sum of the weights that the table was made for.
ghost use Rattle.std.specs.Prelude.{◌≡◌, ◌+◌, max, get_or, length};
ghost use Rattle.graph.specs.declared.Graph.{Graph};
ghost use Rattle.graph.specs.Model.{as_model};
ghost use Rattle.paths.specs.Ahead.{weigh, Summed, Weighed, Sources};
ghost use Rattle.paths.specs.Along.{Follows, Visitable, Comparable, Foremost};

use starts::to;

// What lies ahead of each vertex, and the source where the longest path begins.
#[derive(Clone, Copy)]
pub struct Sums {
    pub ahead: [u64; 128],
    pub head: usize,
}

// The largest sum by the edges of u, or 0 where it has none.
fn most_ahead(
    edge: &[u16; 1024],
    start: &[u16; 129],
    weight: &[u64; 128],
    sums: &[u64; 128],
    u: usize,
) -> u64
    requires { Visitable edge.now start.now weight.now sums.now u }
    ensures { Follows edge.now weight.now sums.now (get_or start.now u 0) (get_or start.now (u + 1) 0) result }
{
    let mut most: u64 = 0;
    for i in start[u] as usize..start[u + 1] as usize {
        let v = to(edge[i]);
        most = most.max(weight[v] + sums[v]);
    }
    most
}

// Of the vertices that nobody leads to, one with the largest sum; of several, the least. They are looked at from the last to the first, so
// that of equal sums the lower number stays. `source` is one of them, to begin with.
fn foremost(
    weight: &[u64; 128],
    sums: &[u64; 128],
    led: &[u8; 128],
    n: usize,
    source: usize,
) -> usize
    requires { Comparable weight.now sums.now led.now n source }
    ensures { Foremost weight.now sums.now led.now n result }
{
    let mut head = source;
    let mut most = weight[source] + sums[source];
    for v in (0..n).rev() {
        let sum = weight[v] + sums[v];
        if (led[v] == 0) & (most <= sum) {
            head = v;
            most = sum;
        }
    }
    head
}

// One pass along the order, from its last vertex to its first: the successors of a vertex stand after it, so their sums are done
// before its own. `led` has 0 for the vertices that nobody leads to; the first of the order is one of them.
// The lists are lent, so the contract speaks of any accepted graph that they are of.
pub fn longest(
    edge: &[u16; 1024],
    start: &[u16; 129],
    order: &[u8; 128],
    n: usize,
    weight: &[u64; 128],
    led: &[u8; 128],
) -> Sums
    requires { (g : Graph) × Weighed g edge.now start.now order.now n weight.now × Sources g led.now }
    ensures { (g : Graph) → Weighed g edge.now start.now order.now n weight.now → Sources g led.now → Summed (as_model g) (weigh weight.now) result }
{
    let mut sums = Sums {
        ahead: [0u64; 128],
        head: 0,
    };
    for j in (0..n).rev() {
        let u = order[j] as usize;
        sums.ahead[u] = most_ahead(edge, start, weight, &sums.ahead, u);
    }
    sums.head = foremost(weight, &sums.ahead, led, n, order[0] as usize);
    sums
}
