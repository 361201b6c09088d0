// The gains of all vertices, from the summary.
ghost use Rattle.std.specs.Prelude.{◌≡◌};
ghost use Rattle.graph.specs.declared.Graph.{Graph};
ghost use Rattle.graph.specs.Model.{as_model};
ghost use Rattle.gaining.specs.Gaining.{gain_by, Fitting, Gainable, GainsIn};

use super::passing::{anew, beyond, lead};
use summary::Summary;
use units::{Parts, Ticks};

// What the longest path loses without the weight of a vertex, and the vertex's part of the volume: what its scaled weight leaves of its WCET.
// Without the weight, the longest path goes past the vertex or through it.
fn gain(len: u64, past: u64, ending: u64, starting: u64, weight: u64, wcet: u32) -> u64
    requires { Fitting len past ending starting weight wcet }
    ensures { result ≡ gain_by len past ending starting weight wcet }
{
    let rest = past.max(ending + starting - weight - weight);
    let parts = Parts::of_ticks(Ticks(wcet as u64));
    len - rest + (parts.0 - weight)
}

// One pass along the order. `best` has the best sum that goes on from each vertex: what starts there, with the best that leads there from the
// places before. `top` is the largest of these from the place on, at first the longest path, and `ended` the largest sum that ended before it.
// The list begins with the sums that end at each vertex, and each gives way to the gain when its turn comes.
// The summary is lent: by value its sums would be one table more on the stack, and `planner_gains` would take more than include/planner.h says.
pub fn gains(
    edge: &[u16; 1024],
    start: &[u16; 129],
    order: &[u8; 128],
    n: usize,
    weight: &[u64; 128],
    wcet: &[u32; 128],
    summary: &Summary,
) -> [u64; 128]
    requires { (g : Graph) × Gainable g edge.now start.now order.now n weight.now wcet.now summary.now }
    ensures { (g : Graph) → Gainable g edge.now start.now order.now n weight.now wcet.now summary.now → GainsIn (as_model g) result }
{
    let starting = &summary.starting;
    let mut list = summary.ending;
    let mut best = *starting;
    let mut top = anew(order, &best, 0, n);
    let len = top.most;
    let mut ended: u64 = 0;
    for p in 0..n {
        let u = order[p] as usize;
        let sum = list[u];
        let next = beyond(order, &best, top, p, n);
        let past = next.most.max(ended);
        list[u] = gain(len, past, sum, starting[u], weight[u], wcet[u]);
        top = lead(edge, start, starting, sum, u, next, &mut best);
        ended = ended.max(sum);
    }
    list
}
