// `plan json FILE`: what the sheet says, and the graph, as one JSON object for other tools (docs/JSON.md). As in `answers`, g is the graph of an accepted file, t
// the bytes that gave it, with the names that they have.
#![tactic(auto)]

mod figures;
mod lists;

ghost use Rattle.graph.specs.Model.{AcceptedGraph};

use board::Names;
use graph::Graph;
use input::Failure;
use say::out;

// The gains of all stages, the largest first.
fn gains(t: &[u8], names: Names, g: Graph) -> bool
    requires { AcceptedGraph g }
{
    let gain = gains::table(g);
    let list = ranks::ranking(&gain, g.n);
    lists::gains(t, names, texts::part(&list, 0, g.n), &gain)
}

fn path(t: &[u8], names: Names, g: Graph) -> bool
    requires { AcceptedGraph g }
{
    let mut path = [0u8; 128];
    let n = answers::sheet::found(g, &mut path);
    lists::path(t, names, texts::part(&path, 0, n))
}

fn bounds_of(g: Graph) -> bool
    requires { AcceptedGraph g }
{
    figures::counts(g) & figures::bounds_of(bounds::figures(g), second::of_graph(g).ok())
}

pub fn answer(t: &[u8], names: Names, g: Graph) -> Result<(), Failure>
    requires { AcceptedGraph g }
{
    let sheet = bounds_of(g) & path(t, names, g) & gains(t, names, g);
    let board = lists::kinds(t, names, g) & lists::stages(t, names, g);
    input::answer(sheet & board & out::text(b"\n}\n"))
}
