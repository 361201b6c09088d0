// Who is a predecessor. Whose predecessor it is stands in the rows that the reader laid.
ghost use Rattle.std.specs.Prelude.{ℕ, ◌≤◌, ◌<◌, eqb};
ghost use Rattle.model.specs.Places.{any};
ghost use Rattle.vset.specs.Members.{Members};
ghost use Rattle.starts.specs.Starts.{comes_from};

use vset::Vset;

pub(crate) fn leading(edge: &[u16; 1024], edges: usize) -> Vset
    requires edges_bound { edges ≤ 1024 }
    requires by_index { (i : ℕ) → i < edges → comes_from edge.now i < 128 }
    ensures { Members result (λ u. any (λ i. eqb (comes_from edge.now i) u) edges) }
{
    let mut some = vset::none();
    for i in 0..edges {
        some = vset::with(some, starts::from(edge[i]));
    }
    some
}
