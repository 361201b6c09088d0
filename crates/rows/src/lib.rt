// Predecessors and ancestors as rows: two tables with a row of two words for each vertex, a bit for each predecessor and a bit for each
// ancestor. The tables are locals. They are lent to be filled, and lent to whoever reads them row by row: a copy would be 2 KB of stack.
#![tactic(auto)]

ghost use Rattle.std.specs.Prelude.{◌≡◌, ◌&&◌, ℕ, ◌≤◌, ◌<◌};
ghost use Rattle.model.specs.Places.{count, padded};
ghost use Rattle.graph.specs.declared.Graph.{Graph};
ghost use Rattle.graph.specs.Model.{as_model};
ghost use Rattle.vset.specs.Members.{is_in, Members};
ghost use Rattle.starts.specs.Starts.{comes_from, leads_to};
ghost use Rattle.sets.specs.Sets.{row_of, empty, Holds};
ghost use Rattle.rows.specs.Rows.{predecessor, above, ones_among, led_by};
ghost use Rattle.rows.specs.Gathered.{gathered, Lined};

use sets::row;
use vset::Vset;

// The predecessors, in one pass over the edges, into a table that is lent and empty.
pub fn predecessors(edge: &[u16; 1024], edges: usize, t: &mut [[u64; 2]; 128])
    requires edges_bound { edges ≤ 1024 }
    requires by_index { (i : ℕ) → i < edges → (comes_from edge.now i < 128) × (leads_to edge.now i < 128) }
    requires t_value { t.old ≡ empty }
    ensures { Holds t.new (predecessor edge.now edges) }
{
    for i in 0..edges {
        let u = starts::from(edge[i]);
        let v = starts::to(edge[i]);
        sets::join(t, v, u);
    }
}

// How many predecessors each of the n vertices has: the ones of its row.
pub fn counted(pred: &[[u64; 2]; 128], n: usize) -> [u8; 128]
    requires { n ≤ 128 }
    ensures { result ≡ padded 128 (ones_among pred.now) n }
{
    let mut list = [0u8; 128];
    for v in 0..n {
        list[v] = vset::size(row(pred, v)) as u8;
    }
    list
}

// Which of the n vertices have a predecessor: 1 where the row has a one, else 0. A number, as the contract says by `padded`, a list of numbers.
pub fn led(pred: &[[u64; 2]; 128], n: usize) -> [u8; 128]
    requires { n ≤ 128 }
    ensures { result ≡ padded 128 (led_by pred.now) n }
{
    let mut list = [0u8; 128];
    for v in 0..n {
        list[v] = u8::from(!vset::is_empty(row(pred, v)));
    }
    list
}

// How many predecessors of v are in the set: the ones that its row and the set have in common.
pub fn common(pred: &[[u64; 2]; 128], v: usize, s: Vset) -> u32
    requires { v < 128 }
    ensures { result ≡ count (λ u. is_in (row_of pred.now v) u && is_in s u) 128 }
{
    vset::size(vset::both(row(pred, v), s))
}

// The members of the set, and whoever is in a row of one of them.
fn gather(t: &[[u64; 2]; 128], s: Vset) -> Vset
    ensures { Members result (gathered t.now s) }
{
    let mut got = s;
    let mut rest = s;
    while !vset::is_empty(rest) {
        let next = vset::next(rest);
        got = vset::either(got, row(t, next.v));
        rest = next.rest;
    }
    got
}

// The ancestors, into a table that is lent and empty. The vertices are taken in the order in which they were taken up: whoever leads to a
// vertex stands before it, so that its own row is done.
pub fn ancestors(order: &[u8; 128], n: usize, pred: &[[u64; 2]; 128], t: &mut [[u64; 2]; 128])
    requires lined { (g : Graph) × Lined g order.now n pred.now }
    requires t_value { t.old ≡ empty }
    ensures { (g : Graph) → Lined g order.now n pred.now → Holds t.new (above (as_model g)) }
{
    for j in 0..n {
        let v = order[j] as usize;
        let own = row(pred, v);
        let got = gather(t, own);
        sets::put(t, v, got);
    }
}
