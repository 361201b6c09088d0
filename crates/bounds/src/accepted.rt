// The bounds and the path of an accepted graph, as it was laid.
ghost use Rattle.std.specs.Prelude.{◌≡◌, ◌+◌, ◌-◌, ◌*◌, ◌/◌, ◌≤◌, ◌<◌, Ok};
ghost use Rattle.model.specs.Places.{along};
ghost use Rattle.model.specs.Path.{Greatest};
ghost use Rattle.model.specs.Bounds.{PARTS};
ghost use Rattle.graph.specs.declared.Graph.{Graph};
ghost use Rattle.graph.specs.Model.{as_model};
ghost use Rattle.reader.specs.Laid.{Usable};
ghost use Rattle.paths.specs.Ahead.{weigh, Weighed, Sources};
ghost use Rattle.bounds.specs.Bounded.{bounded};
ghost use Rattle.bounds.specs.Answers.{Figures, PathIn};

use crate::BothBounds;
use graph::Refusal;
use paths::ahead::longest;
use paths::trace::trace;
use reader::Laid;
use units::{Parts, Ticks};
use weights::volume::{most_cores, volume};
use weights::{Measure, weights};

// The largest sum along a complete path. Where a path may begin is read in the rows of predecessors; the sums go along the edge list, where
// the successors of a vertex stand together: in the rows they would be looked for bit by bit.
pub(crate) fn largest(laid: &Laid, weight: &[u64; 128], led: &[u8; 128]) -> u64
    requires { (g : Graph) × Weighed g laid.now.graph.edge laid.now.starts laid.now.order laid.now.graph.n weight.now × Sources g led.now }
    ensures { (g : Graph) → Weighed g laid.now.graph.edge laid.now.starts laid.now.order laid.now.graph.n weight.now → Sources g led.now → Greatest (as_model g) (along (weigh weight.now)) result }
{
    let sums = longest(
        &laid.graph.edge,
        &laid.starts,
        &laid.order,
        laid.graph.n,
        weight,
        led,
    );
    let h = sums.head;
    weight[h] + sums.ahead[h]
}

// OLD-B, from the longest sum of plain WCETs and the largest core number of a kind that a vertex has.
fn old_b(len: Ticks, cores: u8, shares: Parts) -> Parts
    requires { (len.0 ≤ 128000000) × (0 < cores) × (shares.0 ≤ 922521600000000) }
    ensures { result.0 ≡ (PARTS - PARTS / cores) * len.0 + shares.0 }
{
    Parts::rest(cores).for_ticks(len).plus(shares)
}

pub(crate) fn figures_of(laid: &Laid) -> BothBounds
    requires { Usable laid.now }
    ensures { Figures (as_model laid.now.graph) (bounded (Ok result)) }
{
    let g = &laid.graph;
    let led = rows::led(&laid.pred, g.n);
    let shares = volume(&g.kind, &g.wcet, &g.cores, g.kinds, g.n);
    let plain = weights(&g.kind, &g.wcet, &g.cores, g.kinds, g.n, Measure::Plain);
    let scaled = weights(&g.kind, &g.wcet, &g.cores, g.kinds, g.n, Measure::Scaled);
    let len = Ticks(largest(laid, &plain, &led));
    let old = old_b(len, most_cores(&g.kind, &g.cores, g.kinds, g.n), shares);
    let new = Parts(largest(laid, &scaled, &led)).plus(shares);
    BothBounds {
        old,
        new,
        ticks: new.ticks(),
    }
}

// A path may be shorter than the room that is asked for.
pub(crate) fn path_of(laid: &Laid, out: &mut [u8]) -> Result<usize, Refusal>
    requires { Usable laid.now }
    ensures { PathIn laid.now.graph out.old result out.new }
{
    let g = &laid.graph;
    if out.len() < g.n {
        return Err(Refusal::whole(15));
    }
    let weight = weights(&g.kind, &g.wcet, &g.cores, g.kinds, g.n, Measure::Scaled);
    let led = rows::led(&laid.pred, g.n);
    let sums = longest(&g.edge, &laid.starts, &laid.order, g.n, &weight, &led);
    Ok(trace(&g.edge, &laid.starts, &weight, &sums.ahead, sums.head, out))
}
