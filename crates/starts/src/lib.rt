// The edge list: the two ends of an edge, and where each vertex's edges begin. Edges ascend by the vertex that they come from, so that the edges of a vertex stand
// together: those of u go from its start up to that of u + 1.
#![tactic(auto)]

ghost use Rattle.std.specs.Prelude.{◌≡◌, ◌/◌, ◌%◌, ◌≤◌};
ghost use Rattle.model.specs.Places.{table};
ghost use Rattle.starts.specs.Starts.{start_in};

// The vertex that an edge comes from, and the one that it goes to: an edge is from * 256 + to.
pub fn from(edge: u16) -> usize
    ensures { result ≡ edge / 256 }
{
    (edge / 256) as usize
}

pub fn to(edge: u16) -> usize
    ensures { result ≡ edge % 256 }
{
    (edge % 256) as usize
}

// The start of u, looked for from place i on: no edge before i comes from u or a higher number.
fn start(edge: &[u16; 1024], edges: usize, u: usize, i: usize) -> usize
    requires { (edges ≤ 1024) × (i ≤ start_in edge.now edges u) }
    ensures { result ≡ start_in edge.now edges u }
{
    for at in i..edges {
        if u <= from(edge[at]) {
            return at;
        }
    }
    edges
}

// The starts of all vertices, and that of 128, where the edges of 127 end. Past the last vertex that has edges they are all the same, as they
// stand at first.
pub fn starts(edge: &[u16; 1024], edges: usize) -> [u16; 129]
    requires { edges ≤ 1024 }
    ensures { result ≡ table (start_in edge.now edges) 129 }
{
    let mut list = [edges as u16; 129];
    let mut at = 0;
    for u in 0..129 {
        if at == edges {
            break;
        }
        at = start(edge, edges, u, at);
        list[u] = at as u16;
    }
    list
}
