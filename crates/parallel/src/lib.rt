// Who is parallel to whom, as a table with a row for each vertex: a set of vertices, in two words.
#![tactic(auto)]

ghost use Rattle.std.specs.Prelude.{◌≡◌, [], not, ◌&&◌, ◌||◌, ◌<◌, eqb};
ghost use Rattle.graph.specs.declared.Graph.{Graph};
ghost use Rattle.graph.specs.Model.{as_model};
ghost use Rattle.vset.specs.Members.{is_in, Members};
ghost use Rattle.paths.specs.Ahead.{Weighed};
ghost use Rattle.sets.specs.Sets.{empty, Holds};
ghost use Rattle.rows.specs.Rows.{above};
ghost use Rattle.parallel.specs.Rows.{beside};

use descendants::descendants;
use sets::{put, row};
use vset::Vset;

mod descendants; // descendants.rt: each vertex's descendants

// Of the vertices of one kind those that are not v itself, nor above it, nor below it.
fn apart(same: Vset, above: Vset, below: Vset, v: usize) -> Vset
    requires { v < 128 }
    ensures { Members result (λ w. is_in same w && not ((is_in above w || is_in below w) || eqb w v)) }
{
    vset::minus(same, vset::with(vset::either(above, below), v))
}

// The rows of all vertices, into a table that is lent and empty; those from n on stay empty. `anc` has each vertex's ancestors.
pub fn beside(
    kind: &[u8; 128],
    edge: &[u16; 1024],
    start: &[u16; 129],
    order: &[u8; 128],
    anc: [[u64; 2]; 128],
    n: usize,
    t: &mut [[u64; 2]; 128],
)
    requires weighed { (g : Graph) × Weighed g edge.now start.now order.now n [] × (g.kind ≡ kind.now) × Holds anc (above (as_model g)) }
    requires t_value { t.old ≡ empty }
    ensures { (g : Graph) → Weighed g edge.now start.now order.now n [] → g.kind ≡ kind.now → Holds anc (above (as_model g)) → Holds t.new (beside (as_model g)) }
{
    let words = choice::of_kinds(kind, n);
    descendants(edge, start, order, n, t);
    for v in 0..n {
        let same = choice::set_at(&words, kind[v] as usize);
        let above = row(&anc, v);
        let below = row(t, v);
        put(t, v, apart(same, above, below, v));
    }
}
