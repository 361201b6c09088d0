// How many paths lead from each vertex to a sink, and how many complete paths there are. Every number is cut at 4,097, in each place and in each
// sum: a graph may have more paths than 64 bits can count, and 4,097 says that there are more than 4,096.
#![tactic(auto)]

ghost use Rattle.std.specs.Prelude.{◌≡◌, [], ℕ, ◌≤◌, ◌<◌, min, eqb, get_or};
ghost use Rattle.model.specs.Places.{pick};
ghost use Rattle.graph.specs.declared.Graph.{Graph};
ghost use Rattle.graph.specs.Model.{as_model};
ghost use Rattle.paths.specs.Ahead.{Weighed};
ghost use Rattle.summary.specs.Row.{Row};
ghost use Rattle.ways.specs.Counts.{onward_by, whole_by, Counts};

use summary::row::{many, nth};

// The number of u, from those of the vertices that it has an edge to: a sink has the path that ends there.
fn onward(edge: &[u16; 1024], start: &[u16; 129], ways: &[u16; 128], u: usize) -> u16
    requires row { Row edge.now start.now u }
    requires by_index { (v : ℕ) → get_or ways.now v 0 ≤ 4097 }
    ensures { result ≡ onward_by edge.now start.now ways.now u }
{
    let count = many(start, u);
    if count == 0 {
        return 1;
    }
    let mut total: u16 = 0;
    for k in 0..count {
        total = (total + ways[nth(edge, start, u, k)]).min(4097);
    }
    total
}

// One pass along the order, from its last vertex to its first: the successors of a vertex stand after it, so their numbers are there before its own.
pub fn table(edge: &[u16; 1024], start: &[u16; 129], order: &[u8; 128], n: usize) -> [u16; 128]
    requires { (g : Graph) × Weighed g edge.now start.now order.now n [] }
    ensures { (g : Graph) → Weighed g edge.now start.now order.now n [] → Counts (as_model g) result }
{
    let mut ways = [0u16; 128];
    for j in (0..n).rev() {
        let u = order[j] as usize;
        ways[u] = onward(edge, start, &ways, u);
    }
    ways
}

// `led` is a place of the table that `rows::led` hands over: 0 for a source.
pub fn from_source(led: u8, ways: u16) -> u16
    ensures { result ≡ pick (eqb led 0) ways 0 }
{
    if led == 0 { ways } else { 0 }
}

// The numbers of the sources added up: those that nobody leads to.
pub fn whole(led: &[u8; 128], ways: &[u16; 128], n: usize) -> u16
    requires n_bound { n ≤ 128 }
    requires by_index { (v : ℕ) → get_or ways.now v 0 ≤ 4097 }
    ensures { result ≡ whole_by led.now ways.now n }
{
    let mut total: u16 = 0;
    for v in 0..n {
        total = (total + from_source(led[v], ways[v])).min(4097);
    }
    total
}
