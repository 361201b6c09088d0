// Each vertex's descendants. One pass along the order, from its last vertex to its first: the successors of a vertex stand after it, so their
// descendants are known before its own. The successors are read in the edge list, where they stand together: so a row is put once, where
// along the rows of predecessors it would be put once for each successor.
ghost use Rattle.std.specs.Prelude.{[], ◌≡◌};
ghost use Rattle.graph.specs.declared.Graph.{Graph};
ghost use Rattle.graph.specs.Model.{as_model};
ghost use Rattle.paths.specs.Ahead.{Weighed};
ghost use Rattle.vset.specs.Members.{Members};
ghost use Rattle.summary.specs.Row.{many, Row};
ghost use Rattle.sets.specs.Sets.{empty, Holds};
ghost use Rattle.parallel.specs.Rows.{below, reached_by};

use sets::{put, row};
use vset::Vset;

// The vertices that u has an edge to, and their descendants.
fn reached(edge: &[u16; 1024], start: &[u16; 129], t: &[[u64; 2]; 128], u: usize) -> Vset
    requires { Row edge.now start.now u }
    ensures { Members result (reached_by edge.now start.now t.now u (many start.now u)) }
{
    let mut got = vset::none();
    for k in 0..summary::row::many(start, u) {
        let x = summary::row::nth(edge, start, u, k);
        got = vset::either(got, vset::with(row(t, x), x));
    }
    got
}

pub(crate) fn descendants(
    edge: &[u16; 1024],
    start: &[u16; 129],
    order: &[u8; 128],
    n: usize,
    t: &mut [[u64; 2]; 128],
)
    requires weighed { (g : Graph) × Weighed g edge.now start.now order.now n [] }
    requires t_value { t.old ≡ empty }
    ensures { (g : Graph) → Weighed g edge.now start.now order.now n [] → Holds t.new (below (as_model g)) }
{
    for j in (0..n).rev() {
        let u = order[j] as usize;
        let got = reached(edge, start, t, u);
        put(t, u, got);
    }
}
