// Which vertex the path with a number goes to.
ghost use Rattle.std.specs.Prelude.{ℕ, ◌+◌, ◌≤◌, ◌<◌, get_or};
ghost use Rattle.model.specs.Places.{sum};
ghost use Rattle.summary.specs.Row as row;
ghost use Rattle.ways.specs.Counts.{from_source_of};
ghost use Rattle.visit.specs.Cells.{Chosen, Begun};

use summary::row::{many, nth};

// A vertex, and the number of the first path that goes to it here.
#[derive(Clone, Copy)]
pub struct Step {
    pub v: usize,
    pub base: u64,
}

// The source of the path with the number k.
pub(crate) fn source(led: &[u8; 128], ways: &[u16; 128], n: usize, k: u64) -> Step
    requires n_bound { (n ≤ 128) × (k ≤ 4096) × (k < sum (from_source_of led.now ways.now) n) }
    requires by_index { (v : ℕ) → get_or ways.now v 0 ≤ 4097 }
    ensures { Begun led.now ways.now n k result }
{
    let mut base: u64 = 0;
    for v in 0..n {
        let next = base + ways::from_source(led[v], ways[v]) as u64;
        if k < next {
            return Step { v, base };
        }
        base = next;
    }
    // Not reached: the sources have more paths than k.
    Step { v: 0, base: 0 }
}

// The vertex that the path with the number k goes to from u, whose first path has the number `first`: the last of them, where it goes to none before.
pub(crate) fn child(
    edge: &[u16; 1024],
    start: &[u16; 129],
    ways: &[u16; 128],
    u: usize,
    first: u64,
    k: u64,
) -> Step
    requires row { row.Row edge.now start.now u }
    requires first_le_k { (first ≤ k) × (k ≤ 4096) × (k < first + sum (λ j. get_or ways.now (row.nth edge.now start.now u j) 0) (row.many start.now u)) }
    requires by_index { (v : ℕ) → get_or ways.now v 0 ≤ 4097 }
    ensures { Chosen edge.now start.now ways.now u first k result }
{
    let last = many(start, u) - 1;
    let mut base = first;
    for j in 0..last {
        let v = nth(edge, start, u, j);
        let next = base + ways[v] as u64;
        if k < next {
            return Step { v, base };
        }
        base = next;
    }
    let v = nth(edge, start, u, last);
    Step { v, base }
}
