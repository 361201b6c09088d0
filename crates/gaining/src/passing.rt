// The best path that passes each place of the order: one that has no vertex there. A part of a path weighs no more than the path, so parts count
// as well, and no source or sink is looked for. One that passes a place ends before it, or goes on from a vertex after it: that best sum is kept
// along the order with the vertex where it goes on, and looked for anew only where that vertex is reached.
ghost use Rattle.std.specs.Prelude.{◌≡◌, ℕ, ◌+◌, ◌≤◌, ◌<◌, get_or, length};
ghost use Rattle.summary.specs.Row as row;
ghost use Rattle.gaining.specs.Passing.{higher_of, onward, TopFrom, Led};

use summary::row::{many, nth};

// The largest of some sums, and the vertex that it is of; 128 where no sum is above 0. An Option would be no plainer: each
// comparison would have to open it first.
#[derive(Clone, Copy)]
pub struct Top {
    pub most: u64,
    pub vertex: usize,
}

fn higher(top: Top, sum: u64, vertex: usize) -> Top
    ensures { result ≡ higher_of top sum vertex }
{
    if top.most < sum {
        Top { most: sum, vertex }
    } else {
        top
    }
}

// The largest of the sums of the vertices from a place on.
pub(crate) fn anew(order: &[u8; 128], sums: &[u64; 128], from: usize, n: usize) -> Top
    requires from_le_n { (from ≤ n) × (n ≤ 128) }
    requires by_index { (q : ℕ) → q < n → get_or order.now q 0 < 128 }
    ensures { TopFrom order.now sums.now n from result }
{
    let mut top = Top {
        most: 0,
        vertex: 128,
    };
    for q in from..n {
        let x = order[q] as usize;
        top = higher(top, sums[x], x);
    }
    top
}

// The largest past place p, where `top` is the largest from p on: it stands, unless it is of the vertex at p.
pub(crate) fn beyond(order: &[u8; 128], sums: &[u64; 128], top: Top, p: usize, n: usize) -> Top
    requires p_lt_n { (p < n) × (n ≤ 128) }
    requires by_index { (q : ℕ) → q < n → get_or order.now q 0 < 128 }
    requires top_from { TopFrom order.now sums.now n p top }
    ensures { TopFrom order.now sums.now n (p + 1) result }
{
    if top.vertex == order[p] as usize {
        return anew(order, sums, p + 1, n);
    }
    top
}

// Each edge of u leads on: up to u and on from where it goes makes a sum. It raises what stands for that vertex, and the largest.
pub(crate) fn lead(
    edge: &[u16; 1024],
    start: &[u16; 129],
    starting: &[u64; 128],
    sum: u64,
    u: usize,
    top: Top,
    best: &mut [u64; 128],
) -> Top
    requires row { row.Row edge.now start.now u }
    requires best_len { length best.old ≡ 128 }
    requires sum_bound { sum ≤ 92252160000000 }
    requires by_index { (v : ℕ) → get_or starting.now v 0 ≤ 92252160000000 }
    ensures told { row.Told edge.now start.now (onward starting.now sum) u (row.many start.now u) best.old best.new }
    ensures led { Led edge.now start.now (onward starting.now sum) u (row.many start.now u) top result }
{
    let mut next = top;
    for k in 0..many(start, u) {
        let x = nth(edge, start, u, k);
        let on = sum + starting[x];
        best[x] = best[x].max(on);
        next = higher(next, on, x);
    }
    next
}
