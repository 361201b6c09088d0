// Which sums a changed weight touches: those that end at the vertex or at what lies ahead of it, and those that start at the vertex or at what
// stands behind it. A vertex whose sum is to be made again is marked.
ghost use Rattle.std.specs.Prelude.{◌≡◌, false, ◌||◌, List, ℕ, ◌≤◌, ◌<◌, get_or, length};
ghost use Rattle.model.specs.Places.{pick, any};
ghost use Rattle.graph.specs.declared.Graph.{Graph};
ghost use Rattle.graph.specs.Model.{as_model};
ghost use Rattle.paths.specs.Ahead.{Weighed};
ghost use Rattle.summary.specs.Row as row;
ghost use Rattle.summary.specs.Tables.{Ahead, Behind, Cleared, Marked};

use super::row::{many, nth};

// The successors of u are marked, where u is.
fn hand_on(edge: &[u16; 1024], start: &[u16; 129], u: usize, marks: &mut [bool; 128])
    requires row { row.Row edge.now start.now u }
    requires marks_len { length marks.old ≡ 128 }
    ensures { Marked edge.now start.now (get_or marks.old u false) u (row.many start.now u) marks.old marks.new }
{
    if !marks[u] {
        return;
    }
    for k in 0..many(start, u) {
        marks[nth(edge, start, u, k)] = true;
    }
}

pub(crate) fn ahead(
    edge: &[u16; 1024],
    start: &[u16; 129],
    order: &[u8; 128],
    n: usize,
    v: usize,
) -> [bool; 128]
    requires { (g : Graph) × (w : List ℕ) × Weighed g edge.now start.now order.now n w × (v < g.n) }
    ensures { (g : Graph) (w : List ℕ) → Weighed g edge.now start.now order.now n w → Ahead (as_model g) v result }
{
    let mut marks = [false; 128];
    marks[v] = true;
    for j in 0..n {
        hand_on(edge, start, order[j] as usize, &mut marks);
    }
    marks
}

// Whether u is marked, or one of its successors is.
fn taken(edge: &[u16; 1024], start: &[u16; 129], marks: &[bool; 128], u: usize) -> bool
    requires { row.Row edge.now start.now u }
    ensures { result ≡ (get_or marks.now u false || any (λ k. get_or marks.now (row.nth edge.now start.now u k) false) (row.many start.now u)) }
{
    let mut marked = marks[u];
    for k in 0..many(start, u) {
        marked = marked | marks[nth(edge, start, u, k)];
    }
    marked
}

pub(crate) fn behind(
    edge: &[u16; 1024],
    start: &[u16; 129],
    order: &[u8; 128],
    n: usize,
    v: usize,
) -> [bool; 128]
    requires { (g : Graph) × (w : List ℕ) × Weighed g edge.now start.now order.now n w × (v < g.n) }
    ensures { (g : Graph) (w : List ℕ) → Weighed g edge.now start.now order.now n w → Behind (as_model g) v result }
{
    let mut marks = [false; 128];
    marks[v] = true;
    for j in (0..n).rev() {
        let u = order[j] as usize;
        marks[u] = taken(edge, start, &marks, u);
    }
    marks
}

fn unmarked(mark: bool, sum: u64) -> u64
    ensures { result ≡ pick mark 0 sum }
{
    if mark { 0 } else { sum }
}

// The sums of marked vertices become 0.
pub(crate) fn clear(marks: &[bool; 128], n: usize, sums: &mut [u64; 128])
    requires n_bound { n ≤ 128 }
    requires sums_len { length sums.old ≡ 128 }
    ensures { Cleared marks.now n sums.old sums.new }
{
    for u in 0..n {
        sums[u] = unmarked(marks[u], sums[u]);
    }
}
