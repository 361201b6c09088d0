// `plan [sheet] FILE`: the sheet; for a board text also the path by its names.
ghost use Rattle.graph.specs.Model.{AcceptedGraph};

use board::Names;
use graph::Graph;
use input::Failure;

// How many vertices the path has, which stand in the room.
pub fn found(g: Graph, room: &mut [u8]) -> usize
    requires { AcceptedGraph g }
{
    bounds::path_into(g, room).unwrap_or(0)
}

fn lines(t: &[u8], names: Names, g: Graph, path: &[u8]) -> bool
    requires { AcceptedGraph g }
{
    let gain = gains::table(g);
    let list = ranks::ranking(&gain, g.n);
    let second = second::of_graph(g).ok();
    let sheet = say::sheet::lines(bounds::figures(g), second, g, path, &list[..g.n.min(128)]);
    if names.stages == 0 {
        return sheet;
    }
    sheet & say::sheet::table(t, names, g, path)
}

pub fn answer(t: &[u8], names: Names, g: Graph) -> Result<(), Failure>
    requires { AcceptedGraph g }
{
    let mut path = [0u8; 128];
    let n = found(g, &mut path);
    let written = lines(t, names, g, &path[..n.min(128)]);
    input::answer(written)
}
