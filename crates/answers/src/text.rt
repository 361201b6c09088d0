// `plan text FILE`: the board text of a graph file. `plan graph TEXT`: the graph file of a board text.
use board::Names;
use graph::Graph;
use input::Failure;

pub fn answer(t: &[u8], names: Names, g: Graph) -> Result<(), Failure> {
    input::answer(say::text::lines(t, names, g))
}

pub fn file(file: &[u8]) -> Result<(), Failure> {
    input::answer(say::out::text(file))
}
