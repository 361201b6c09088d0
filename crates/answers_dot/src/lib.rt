// `plan dot FILE`: the graph as graphviz's dot takes it, with the path in thick lines and a colour for each type. As in `answers`, g is the graph of an accepted
// file, t the bytes that gave it, with the names that they have.
#![tactic(auto)]

mod colours;
mod edges;
mod nodes;
mod places;

ghost use Rattle.graph.specs.Model.{AcceptedGraph};

use board::Names;
use graph::Graph;
use input::Failure;
use say::out;

fn head() -> bool {
    let graph = out::text(b"digraph board {\n  rankdir=LR;\n");
    graph & out::text(b"  node [shape=box, style=filled, fontname=\"sans-serif\"];\n")
}

pub fn answer(t: &[u8], names: Names, g: Graph) -> Result<(), Failure>
    requires { AcceptedGraph g }
{
    let gain = gains::table(g);
    let mut path = [0u8; 128];
    let n = answers::sheet::found(g, &mut path);
    let place = places::along(texts::part(&path, 0, n));
    let drawn = head() & nodes::lines(t, names, g, &place, &gain) & edges::lines(g, &place);
    input::answer(drawn & out::text(b"}\n"))
}
