// Each vertex's number of unfinished predecessors. A vertex that is finished tells its successors, so that each edge is looked at once
// in a whole run. A successor with no ticks left that waited for this one alone is finished as well, and tells its own.
#![tactic(auto)]

ghost use Rattle.std.specs.Prelude.{◌≡◌, ℕ, ◌≤◌, ◌<◌, ltb, get_or, length};
ghost use Rattle.vset.specs.Members.{is_in, Members};
ghost use Rattle.starts.specs.Starts.{leads_to, Rows};
ghost use Rattle.sets.specs.Sets.{Holds};
ghost use Rattle.rows.specs.Rows.{predecessor};
ghost use Rattle.waiting.specs.Waiting.{leading, edges_by, Layout, Released, Told, Unsettled, Settled, self_counted};

use vset::Vset;

// Who stands behind an unfinished vertex, and who is finished and has not told its successors.
#[derive(Clone, Copy)]
pub struct News {
    pub behind: Vset,
    pub done: Vset,
}

// One unfinished predecessor less for v.
fn release(waiting: &mut [u8; 128], v: usize, busy: Vset, s: News) -> News
    requires { (v < 128) × (0 < get_or waiting.old v 0) }
    ensures { Released waiting.old v (is_in busy) s waiting.new result }
{
    let rest = waiting[v] - 1;
    waiting[v] = rest;
    if 0 < rest {
        return s;
    }
    News {
        behind: vset::without(s.behind, v),
        done: vset::with_if(s.done, v, !vset::test(busy, v)),
    }
}

// The successors along the edges from place `start` up to `end` are told.
fn tell(
    edge: &[u16; 1024],
    start: u16,
    end: u16,
    waiting: &mut [u8; 128],
    busy: Vset,
    s: News,
) -> News
    requires waiting_len { length waiting.old ≡ 128 }
    requires start_le_end { (start ≤ end) × (end ≤ 1024) }
    requires by_index { (i : ℕ) → i < end → leads_to edge.now i < 128 }
    requires by_index_2 { (v : ℕ) → v < 128 → leading edge.now start end v ≤ get_or waiting.old v 0 }
    requires members { Members s.behind (λ v. ltb 0 (get_or waiting.old v 0)) }
    ensures { Told edge.now start end waiting.old (is_in busy) s waiting.new result }
{
    let mut told = s;
    for i in start as usize..end as usize {
        told = release(waiting, starts::to(edge[i]), busy, told);
    }
    told
}

// Those in `done` tell their successors, and so does everyone who is finished by that. What is returned stands behind someone still.
pub fn settle(
    edge: &[u16; 1024],
    starts: &[u16; 129],
    waiting: &mut [u8; 128],
    busy: Vset,
    behind: Vset,
    done: Vset,
) -> Vset
    requires layout { Layout edge.now starts.now }
    requires unsettled { Unsettled edge.now (edges_by starts.now) waiting.old (is_in busy) (is_in behind) (is_in done) }
    ensures { Settled edge.now (edges_by starts.now) waiting.new (is_in busy) result }
{
    let mut hind = behind;
    let mut rest = done;
    while !vset::is_empty(rest) {
        let next = vset::next(rest);
        let u = next.v;
        let left = next.rest;
        let others = News {
            behind: hind,
            done: left,
        };
        let news = tell(edge, starts[u], starts[u + 1], waiting, busy, others);
        hind = news.behind;
        rest = news.done;
    }
    hind
}

// The vertices that wait for another.
pub fn held(waiting: [u8; 128]) -> Vset
    ensures { Members result (λ v. ltb 0 (get_or waiting v 0)) }
{
    let mut got = vset::none();
    for v in 0..128 {
        got = vset::with_if(got, v, 0 < waiting[v]);
    }
    got
}

// The first n vertices.
fn all(n: usize) -> Vset
    requires { n ≤ 128 }
    ensures { Members result (λ v. ltb v n) }
{
    let mut got = vset::none();
    for v in 0..n {
        got = vset::with(got, v);
    }
    got
}

// The numbers, and who stands behind an unfinished vertex.
#[derive(Clone, Copy)]
pub struct Counters {
    pub waiting: [u8; 128],
    pub behind: Vset,
}

// The counters of n vertices of which those in `busy` have ticks left. At first each predecessor counts, which are the ones of a vertex's
// row, and whoever has none and no ticks left has to tell its successors. These are read in the edge list, where they stand together: in
// the rows they would be one bit of each row, so that all rows were looked at for each vertex.
pub fn begun(
    pred: &[[u64; 2]; 128],
    edge: &[u16; 1024],
    starts: &[u16; 129],
    n: usize,
    busy: Vset,
) -> Counters
    requires layout { Layout edge.now starts.now }
    requires rows { Rows edge.now (edges_by starts.now) n starts.now }
    requires holds { Holds pred.now (predecessor edge.now (edges_by starts.now)) }
    ensures { Settled edge.now (edges_by starts.now) result.waiting (is_in busy) result.behind }
{
    let mut waiting = rows::counted(pred, n);
    let hind = held(waiting);
    let done = vset::minus(all(n), vset::either(busy, hind));
    let behind = settle(edge, starts, &mut waiting, busy, hind, done);
    Counters { waiting, behind }
}

// Whether the numbers are right. They are taken at their word: a vertex is unfinished where it has ticks left or its number is not 0, and
// the predecessors that are so are the ones that these and a vertex's row have in common. Where there is no cycle, only the right numbers
// agree with themselves.
pub fn agree(pred: &[[u64; 2]; 128], waiting: [u8; 128], busy: Vset, behind: Vset) -> bool
    ensures { result ≡ self_counted pred.now waiting (is_in busy) (is_in behind) }
{
    let some = vset::either(busy, behind);
    let mut ok = true;
    for v in 0..128 {
        ok = ok & (waiting[v] as u32 == rows::common(pred, v, some));
    }
    ok
}
