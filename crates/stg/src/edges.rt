// The edges of a text, ascending by (from, to).
ghost use Rattle.std.specs.Prelude.{◌≡◌, Bool, List, [], ◌∷◌, ◌++◌, ℕ, ◌+◌, ◌*◌, ◌≤◌, ◌<◌, length, replicate};
ghost use Rattle.sets.specs.Sets.{row_of};
ghost use Rattle.model.specs.Places.{that};
ghost use Rattle.stg.specs.After.{From};
ghost use Rattle.stg.specs.Listed.{Listed};

use vset::Vset;

// One edge more. One more than is allowed is kept, and no more: it tells that there are too many.
fn push(list: &mut [u16; 1025], many: usize, edge: u16) -> usize
    requires { (many ≤ 1025) × (length list.old ≡ 1025) }
    ensures by_index { (xs : List ℕ) → Listed xs many list.old → Listed (xs ++ (edge ∷ [])) result list.new }
    ensures upper_bound { (result ≤ 1025) × (length list.new ≡ 1025) }
{
    if 1025 <= many {
        return many;
    }
    list[many] = edge;
    many + 1
}

// The edges from u: u * 256 + v for each task v that comes after it.
fn edges_from(list: &mut [u16; 1025], many: usize, u: usize, after: Vset) -> usize
    requires { (u < 128) × (many ≤ 1025) × (length list.old ≡ 1025) }
    ensures by_index { (p : ℕ → Bool) → From p u after → Listed (that p (256 * u)) many list.old → Listed (that p (256 * (u + 1))) result list.new }
    ensures upper_bound { (result ≤ 1025) × (length list.new ≡ 1025) }
{
    let mut rest = after;
    let mut m = many;
    while !vset::is_empty(rest) {
        let next = vset::next(rest);
        m = push(list, m, (256 * u + next.v) as u16);
        rest = next.rest;
    }
    m
}

// All edges of n + 2 tasks, in the order of these numbers.
pub(crate) fn all_edges(after: &[[u64; 2]; 128], n: usize, list: &mut [u16; 1025]) -> usize
    requires { (n ≤ 126) × (list.old ≡ replicate 1025 0) }
    ensures { (p : ℕ → Bool) → ((u : ℕ) → u < n + 2 → From p u (row_of after.now u)) → Listed (that p (256 * (n + 2))) result list.new }
{
    let mut many = 0;
    for u in 0..n + 2 {
        many = edges_from(list, many, u, sets::row(after, u));
    }
    many
}
