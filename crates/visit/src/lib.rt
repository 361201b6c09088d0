// The largest second value of a complete path. The paths are visited one after the other by their numbers; those that begin alike share the cells of
// their beginning, so that only what comes after the last common vertex is walked again.
#![tactic(auto)]

ghost use Rattle.std.specs.Prelude.{◌≡◌, ℕ, ◌-◌, ◌+◌, ◌≤◌, ◌<◌, get_or};
ghost use Rattle.model.specs.Second.{NewB2};
ghost use Rattle.model.specs.PathCount.{path_count};
ghost use Rattle.graph.specs.declared.Graph.{Graph};
ghost use Rattle.graph.specs.Model.{as_model};
ghost use Rattle.paths.specs.Ahead.{Sources};
ghost use Rattle.visit.specs.Cells.{Ground, Laid, cell_of, Kept, Reached, Ended};

use cell::{at, put};
use choose::{child, source};
use gain::opened;
use summary::row::many;

mod cell; // cell.rt: a cell of the path that is walked
mod choose; // choose.rt: which vertex the path with a number goes to
mod gain; // gain.rt: what a vertex adds to a path

// How many of the first cells the path with the number k has as well: its number is not below theirs, so all up to the last that it is among.
fn shared(cells: &[[u64; 5]; 128], ways: &[u16; 128], depth: usize, k: u64) -> usize
    requires depth_bound { (depth ≤ 128) × (k ≤ 4096) }
    requires by_index { (v : ℕ) → get_or ways.now v 0 ≤ 4097 }
    requires by_index_2 { (i : ℕ) → i < depth → ((cell_of cells.now i).v < 128) × ((cell_of cells.now i).base ≤ k) }
    ensures upper_bound { result ≤ depth }
    ensures k_bound { 0 < result → k < (cell_of cells.now (result - 1)).base + get_or ways.now (cell_of cells.now (result - 1)).v 0 }
{
    for i in (0..depth).rev() {
        let c = at(cells, i);
        let v = c.v;
        if k < c.base + ways[v] as u64 {
            return i + 1;
        }
    }
    0
}

// The cell of its source, where it has none of them.
fn rooted(
    led: &[u8; 128],
    ways: &[u16; 128],
    rows: &[[u64; 2]; 128],
    kind: &[u8; 128],
    wcet: &[u32; 128],
    share: &[u64; 10],
    n: usize,
    cells: &mut [[u64; 5]; 128],
    depth: usize,
    k: u64,
) -> usize
    requires { (g : Graph) × Ground g ways.now rows.now kind.now wcet.now share.now × Sources g led.now × (n ≡ g.n) × (k < path_count (as_model g)) × Kept (as_model g) cells.old depth k }
    ensures { (g : Graph) → Ground g ways.now rows.now kind.now wcet.now share.now → Sources g led.now → n ≡ g.n → k < path_count (as_model g) → Kept (as_model g) cells.old depth k → Reached (as_model g) cells.new result k }
{
    if 0 < depth {
        return depth;
    }
    let s = source(led, ways, n, k);
    let c = opened(rows, kind, wcet, share, s.v, s.base, vset::none(), 0);
    put(cells, 0, c);
    1
}

// On to a sink.
fn descend(
    edge: &[u16; 1024],
    start: &[u16; 129],
    ways: &[u16; 128],
    rows: &[[u64; 2]; 128],
    kind: &[u8; 128],
    wcet: &[u32; 128],
    share: &[u64; 10],
    cells: &mut [[u64; 5]; 128],
    depth: usize,
    k: u64,
) -> usize
    requires { (g : Graph) × Ground g ways.now rows.now kind.now wcet.now share.now × Laid g edge.now start.now × (k < path_count (as_model g)) × Reached (as_model g) cells.old depth k }
    ensures { (g : Graph) → Ground g ways.now rows.now kind.now wcet.now share.now → Laid g edge.now start.now → k < path_count (as_model g) → Reached (as_model g) cells.old depth k → Ended (as_model g) cells.new result k }
{
    let mut d = depth;
    let mut c = at(cells, d - 1);
    while 0 < many(start, c.v) {
        let s = child(edge, start, ways, c.v, c.base, k);
        let beside = c.beside;
        c = opened(rows, kind, wcet, share, s.v, s.base, beside, c.value);
        put(cells, d, c);
        d += 1;
    }
    d
}

pub fn largest(
    edge: &[u16; 1024],
    start: &[u16; 129],
    ways: &[u16; 128],
    led: &[u8; 128],
    rows: &[[u64; 2]; 128],
    kind: &[u8; 128],
    wcet: &[u32; 128],
    share: &[u64; 10],
    n: usize,
    count: u64,
) -> u64
    requires { (g : Graph) × Ground g ways.now rows.now kind.now wcet.now share.now × Laid g edge.now start.now × Sources g led.now × (n ≡ g.n) × (count ≡ path_count (as_model g)) }
    ensures { (g : Graph) → Ground g ways.now rows.now kind.now wcet.now share.now → Laid g edge.now start.now → Sources g led.now → n ≡ g.n → count ≡ path_count (as_model g) → NewB2 (as_model g) result }
{
    let mut cells = [[0u64; 5]; 128];
    let mut best: u64 = 0;
    let mut depth: usize = 0;
    for k in 0..count {
        let d = shared(&cells, ways, depth, k);
        let from = rooted(led, ways, rows, kind, wcet, share, n, &mut cells, d, k);
        depth = descend(
            edge, start, ways, rows, kind, wcet, share, &mut cells, from, k,
        );
        let c = at(&cells, depth - 1);
        best = best.max(c.value);
    }
    best
}
