// The bounds OLD-B and NEW-B-1, and the path that gives NEW-B-1. The two entries take the file's bytes.
#![tactic(auto)]

ghost use Rattle.std.specs.Prelude.{◌≡◌, ◌≤◌, Ok};
ghost use Rattle.model.specs.Bounds.{volume, NewB1};
ghost use Rattle.graph.specs.Model.{AcceptedGraph, as_model};
ghost use Rattle.reader.specs.Laid.{Usable, on_cores};
ghost use Rattle.bounds.specs.Bounded.{bounded};
ghost use Rattle.bounds.specs.Answers.{Figures, BoundsOf, PathOf, PathIn};

use graph::{Graph, Refusal};
use reader::Laid;
use units::{Parts, Ticks};
use weights::{Measure, weights};

mod accepted; // accepted.rt: the bounds and the path of an accepted graph

// The two bounds; `ticks` is NEW-B-1 in whole ticks.
#[derive(Clone, Copy)]
pub struct BothBounds {
    pub old: Parts,
    pub new: Parts,
    pub ticks: Ticks,
}

pub fn bounds(file: &[u8]) -> Result<BothBounds, Refusal>
    ensures { BoundsOf file.now (bounded result) }
{
    let mut laid = Laid::blank();
    reader::take_rows(file, &mut laid)?;
    Ok(accepted::figures_of(&laid))
}

// The path, a byte for each vertex, into the list that the caller lends: so many vertices, in its first places.
pub fn path(file: &[u8], out: &mut [u8]) -> Result<usize, Refusal>
    ensures { PathOf file.now out.old result out.new }
{
    let mut laid = Laid::blank();
    reader::take_rows(file, &mut laid)?;
    accepted::path_of(&laid, out)
}

// ---- of a graph that was read already

pub fn figures(g: Graph) -> BothBounds
    requires { AcceptedGraph g }
    ensures { Figures (as_model g) (bounded (Ok result)) }
{
    let mut laid = Laid::blank();
    reader::along_rows(g, &mut laid);
    accepted::figures_of(&laid)
}

pub fn path_into(g: Graph, out: &mut [u8]) -> Result<usize, Refusal>
    requires { AcceptedGraph g }
    ensures { PathIn g out.old result out.new }
{
    let mut laid = Laid::blank();
    reader::along_rows(g, &mut laid);
    accepted::path_of(&laid, out)
}

// NEW-B-1 alone, on other numbers of cores, from the volume on these that a caller has already.
pub fn new_of(laid: &Laid, cores: &[u8; 10], shares: Parts) -> Parts
    requires usable { Usable (on_cores laid.now cores.now) }
    requires shares_value { (shares.0 ≡ volume (as_model (on_cores laid.now cores.now).graph)) × (shares.0 ≤ 922521600000000) }
    ensures { NewB1 (as_model (on_cores laid.now cores.now).graph) result.0 }
{
    let g = &laid.graph;
    let led = rows::led(&laid.pred, g.n);
    let weight = weights(&g.kind, &g.wcet, cores, g.kinds, g.n, Measure::Scaled);
    Parts(accepted::largest(laid, &weight, &led)).plus(shares)
}
