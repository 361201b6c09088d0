// Number 11, of an edge list: cycles.
//
// A vertex is taken up once nobody who leads to it is left: at first those that nobody leads to. Whoever is taken up tells its successors,
// so that each edge is looked at once. On a cycle everyone waits for another, also where no source reaches it: so there is a cycle just
// where somebody is never taken up. Where nobody is left, the order in which they were taken up goes along the edges.
#![tactic(auto)]

ghost use Rattle.std.specs.Prelude.{◌≡◌, false, ℕ, ◌≤◌, ◌<◌, get_or, length};
ghost use Rattle.model.specs.Cycle as model;
ghost use Rattle.graph.specs.Model.{as_model};
ghost use Rattle.starts.specs.Starts.{leads_to, Rows, Ordered};
ghost use Rattle.sets.specs.Sets.{Holds};
ghost use Rattle.rows.specs.Rows.{predecessor};
ghost use Rattle.waiting.specs.Waiting.{leading, edges_by};
ghost use Rattle.cycle.specs.Drawn.{drawn};
ghost use Rattle.cycle.specs.Line.{everyone, Unled, Told, Line};

// The vertices that nobody leads to come first.
fn unled(waiting: &[u8; 128], n: usize, order: &mut [u8; 128]) -> usize
    requires n_bound { n ≤ 128 }
    requires order_len { length order.old ≡ 128 }
    ensures { Unled waiting.now n order.new result }
{
    let mut found: usize = 0;
    for v in 0..n {
        if waiting[v] == 0 {
            order[found] = v as u8;
            found += 1;
        }
    }
    found
}

// One predecessor less for each successor along the edges from place `start` up to `end`. Who has none left is taken up.
fn tell(
    edge: &[u16; 1024],
    start: u16,
    end: u16,
    waiting: &mut [u8; 128],
    order: &mut [u8; 128],
    found: usize,
) -> usize
    requires waiting_len { (length waiting.old ≡ 128) × (length order.old ≡ 128) }
    requires start_le_end { (start ≤ end) × (end ≤ 1024) }
    requires by_index { (i : ℕ) → i < end → leads_to edge.now i < 128 }
    requires by_index_2 { (v : ℕ) → v < 128 → leading edge.now start end v ≤ get_or waiting.old v 0 }
    requires found_bound { everyone waiting.old found ≤ 128 }
    ensures { Told edge.now start end waiting.old order.old found waiting.new order.new result }
{
    let mut all = found;
    for i in start as usize..end as usize {
        let v = starts::to(edge[i]);
        let rest = waiting[v] - 1;
        waiting[v] = rest;
        if rest == 0 {
            order[all] = v as u8;
            all += 1;
        }
    }
    all
}

// Everyone who is taken up tells its successors, in the order of taking up. What is returned is how many there are at last.
fn take_up(
    edge: &[u16; 1024],
    starts: &[u16; 129],
    waiting: &mut [u8; 128],
    order: &mut [u8; 128],
    first: usize,
) -> usize
    requires rows { Rows edge.now (edges_by starts.now) (everyone waiting.old first) starts.now }
    requires line { Line edge.now (edges_by starts.now) (everyone waiting.old first) waiting.old order.old 0 first }
    ensures { Line edge.now (edges_by starts.now) (everyone waiting.old first) waiting.new order.new result result }
{
    let mut found = first;
    let mut told: usize = 0;
    // The line grows while it is walked, so that its end isn't known before.
    while told < found {
        let u = order[told] as usize;
        found = tell(edge, starts[u], starts[u + 1], waiting, order, found);
        told += 1;
    }
    found
}

// Number 11: whether the edges hold a cycle. Where they hold none, `order` has the vertices in an order along them. How many lead to each
// is the number of ones of its row. Whom a vertex leads to is read in the edge list, where its successors stand together: in the rows it
// would be one bit of each row, so that all rows were looked at for each vertex.
pub fn cyclic(
    edge: &[u16; 1024],
    starts: &[u16; 129],
    pred: &[[u64; 2]; 128],
    n: usize,
    edges: usize,
    order: &mut [u8; 128],
) -> bool
    requires rows { Rows edge.now edges n starts.now }
    requires holds { Holds pred.now (predecessor edge.now edges) }
    requires order_len { length order.old ≡ 128 }
    ensures value { result ≡ model.cyclic (as_model (drawn edge.now n edges)) }
    ensures ordered { result ≡ false → Ordered edge.now edges n order.new }
{
    let mut waiting = rows::counted(pred, n);
    let first = unled(&waiting, n, order);
    let found = take_up(edge, starts, &mut waiting, order, first);
    found != n
}
