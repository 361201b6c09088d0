// The path, step by step: from its head, to the least successor that keeps the sum.
ghost use Rattle.graph.specs.declared.Graph.{Graph};
ghost use Rattle.graph.specs.Model.{as_model};
ghost use Rattle.paths.specs.Ahead.{weigh};
ghost use Rattle.paths.specs.Along.{Visitable};
ghost use Rattle.paths.specs.Trace.{Traceable, Traced, Onward};

use starts::to;

// Where the first edge of u goes that keeps its sum: edges ascend, so it is the least such vertex. 128 where there is none:
// `Onward` and `Tracing` say by one number where the walk stands, also past its end.
fn onward(
    edge: &[u16; 1024],
    start: &[u16; 129],
    weight: &[u64; 128],
    sums: &[u64; 128],
    u: usize,
) -> usize
    requires { Visitable edge.now start.now weight.now sums.now u }
    ensures { Onward edge.now start.now weight.now sums.now u result }
{
    for i in start[u] as usize..start[u + 1] as usize {
        let v = to(edge[i]);
        if weight[v] + sums[v] == sums[u] {
            return v;
        }
    }
    128
}

pub fn trace(
    edge: &[u16; 1024],
    start: &[u16; 129],
    weight: &[u64; 128],
    sums: &[u64; 128],
    head: usize,
    out: &mut [u8],
) -> usize
    requires { (g : Graph) × Traceable g edge.now start.now weight.now sums.now head out.old }
    ensures { (g : Graph) → Traceable g edge.now start.now weight.now sums.now head out.old → Traced (as_model g) (weigh weight.now) (weigh sums.now) head out.old out.new result }
{
    let mut count: usize = 0;
    let mut v = head;
    while v < 128 {
        out[count] = v as u8;
        count += 1;
        v = onward(edge, start, weight, sums, v);
    }
    count
}
