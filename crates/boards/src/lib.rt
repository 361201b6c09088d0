// Whether one board is at least as good as another: the first point in which it is not. For accepted graphs.
#![tactic(auto)]

ghost use Rattle.std.specs.Prelude.{◌≡◌, Bool, not, ℕ, ◌≤◌, ◌<◌, eqb, get_or};
ghost use Rattle.model.specs.Places.{any, first};
ghost use Rattle.graph.specs.Model.{AcceptedGraph};
ghost use Rattle.boards.specs.Points.{below, new_point, edge_point, stage_point, point_of};

use graph::Graph;

// At least as good in every point; the same, but that edges are missing; or what the first point that fails is about, and which type, stage or edge it is.
#[derive(Clone, Copy)]
pub enum Point {
    AsGood,
    FewerEdges,
    Kinds,
    Stages,
    Cores(usize),
    Kind(usize),
    Wcet(usize),
    Edge(usize),
}

// The first place below n of which the test holds.
fn first_at<F: Fn(usize) -> bool>(n: usize, test: F) -> Option<usize>
    requires { (k : ℕ) → k < n → F.pre test k }
    ensures { (p : ℕ → Bool) → ((k : ℕ) (b : Bool) → k < n → F.post test k b → b ≡ p k) → result ≡ below (first p n) n }
{
    for k in 0..n {
        if test(k) {
            return Some(k);
        }
    }
    None
}

// Whether the edge is none of the first n of the list.
fn lacks(edge: &[u16; 1024], n: usize, e: u16) -> bool
    requires { n ≤ 1024 }
    ensures { result ≡ not (any (λ j. eqb (get_or edge.now j 0) e) n) }
{
    !edge[..n].contains(&e)
}

// The first edge of h that g has not.
fn of_new(g: &Graph, h: &Graph) -> Point
    requires { (g.now.edges ≤ 1024) × (h.now.edges ≤ 1024) }
    ensures { result ≡ new_point g.now h.now }
{
    match first_at(h.edges, |i| lacks(&g.edge, g.edges, h.edge[i])) {
        Some(i) => Point::Edge(i),
        None => Point::FewerEdges,
    }
}

fn of_edges(g: &Graph, h: &Graph) -> Point
    requires { (g.now.edges ≤ 1024) × (h.now.edges ≤ 1024) }
    ensures { result ≡ edge_point g.now h.now }
{
    if g.edges != h.edges {
        return of_new(g, h);
    }
    match first_at(g.edges, |i| g.edge[i] != h.edge[i]) {
        Some(_) => of_new(g, h),
        None => Point::AsGood,
    }
}

fn of_stages(g: &Graph, h: &Graph) -> Point
    requires { (g.now.n ≤ 128) × ((g.now.edges ≤ 1024) × (h.now.edges ≤ 1024)) }
    ensures { result ≡ stage_point g.now h.now }
{
    if let Some(v) = first_at(g.n, |v| g.kind[v] != h.kind[v]) {
        return Point::Kind(v);
    }
    if let Some(v) = first_at(g.n, |v| g.wcet[v] < h.wcet[v]) {
        return Point::Wcet(v);
    }
    of_edges(g, h)
}

// The first point in which h is not at least as good as g.
pub fn worse(g: Graph, h: Graph) -> Point
    requires accepted_graph { AcceptedGraph g }
    requires accepted_graph_2 { AcceptedGraph h }
    ensures { result ≡ point_of g h }
{
    if g.kinds != h.kinds {
        return Point::Kinds;
    }
    if g.n != h.n {
        return Point::Stages;
    }
    match first_at(g.kinds, |s| h.cores[s] < g.cores[s]) {
        Some(s) => Point::Cores(s),
        None => of_stages(&g, &h),
    }
}
