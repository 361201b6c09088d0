// The gains of an accepted graph, as it was laid.
ghost use Rattle.std.specs.Prelude.{◌≡◌, length};
ghost use Rattle.model.specs.Places.{padded};
ghost use Rattle.graph.specs.Model.{as_model};
ghost use Rattle.weights.specs.Weight.{weight_by, stages, Small};
ghost use Rattle.weights.specs.declared.Measure.TheVariants.{Scaled};
ghost use Rattle.reader.specs.Laid.{Usable};
ghost use Rattle.gaining.specs.Gaining.{GainsIn};
ghost use Rattle.gains.specs.Answers.{GainedIn, AlteredIn};

use gaining::table;
use graph::{Graph, Refusal};
use reader::Laid;
use summary::{afresh, altered};
use weights::{Measure, weights};

// A function of its own on the stack, so that the table in which the weights are made is gone when the summary is.
#[inline(never)]
fn scaled(g: &Graph) -> [u64; 128]
    requires { Small (stages g.now.kind g.now.wcet g.now.cores g.now.kinds g.now.n) }
    ensures { result ≡ padded 128 (weight_by Scaled (stages g.now.kind g.now.wcet g.now.cores g.now.kinds g.now.n)) g.now.n }
{
    weights(&g.kind, &g.wcet, &g.cores, g.kinds, g.n, Measure::Scaled)
}

// From the summary made afresh.
pub(crate) fn table_of(laid: &Laid) -> [u64; 128]
    requires { Usable laid.now }
    ensures { GainsIn (as_model laid.now.graph) result }
{
    let g = &laid.graph;
    let weight = scaled(g);
    let summary = afresh(&g.edge, &laid.starts, &laid.order, g.n, &weight);
    table::gains(
        &g.edge,
        &laid.starts,
        &laid.order,
        g.n,
        &weight,
        &g.wcet,
        &summary,
    )
}

pub(crate) fn gains_of(laid: &Laid, out: &mut [u64]) -> Result<usize, Refusal>
    requires { Usable laid.now }
    ensures { GainedIn (as_model laid.now.graph) out.old result out.new }
{
    let n = laid.graph.n;
    if out.len() < n {
        return Err(Refusal::whole(15));
    }
    let gain = table_of(laid);
    lent::hand_over(&gain[..n], out);
    Ok(n)
}

// 7 at 0 where the graph has no such vertex, then 7 at the vertex's record where the WCET is above the limit, then 15.
pub(crate) fn altered_of(
    laid: &Laid,
    vertex: u32,
    time: u32,
    out: &mut [u64],
) -> Result<usize, Refusal>
    requires usable { Usable laid.now }
    requires wcet_len { length laid.now.graph.wcet ≡ 128 }
    ensures { AlteredIn laid.now.graph vertex time out.old result out.new }
{
    let g = &laid.graph;
    let n = g.n;
    let v = vertex as usize;
    if n <= v {
        return Err(Refusal::whole(7));
    }
    if 1000000 < time {
        return Err(Refusal {
            number: 7,
            place: g.kinds as u32 + vertex,
        });
    }
    if out.len() < n {
        return Err(Refusal::whole(15));
    }
    let weight = weights(&g.kind, &g.wcet, &g.cores, g.kinds, n, Measure::Scaled);
    let old = afresh(&g.edge, &laid.starts, &laid.order, n, &weight);
    let mut times = g.wcet;
    times[v] = time;
    let next = weights(&g.kind, &times, &g.cores, g.kinds, n, Measure::Scaled);
    let summary = altered(&g.edge, &laid.starts, &laid.order, n, &next, old, v);
    let gain = table::gains(
        &g.edge,
        &laid.starts,
        &laid.order,
        n,
        &next,
        &times,
        &summary,
    );
    lent::hand_over(&gain[..n], out);
    Ok(n)
}
