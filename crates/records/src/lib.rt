// The records of a graph file, and how many there are of each kind.
#![tactic(auto)]

ghost use Rattle.std.specs.Prelude.{◌≡◌, List, ℕ, ◌+◌, ◌<◌, ◌≤◌, max};
ghost use Rattle.graph.specs.File.{records, byte_at, word_at, key_at, order};
ghost use Rattle.records.specs.Passing.{Counted, Before};

// Byte `j` of record `k`.
pub fn byte(file: &[u8], k: usize, j: usize) -> usize
    requires { (k < records file.now) × (j < 8) }
    ensures { (result ≡ byte_at file.now k j) × (result < 256) }
{
    file[8 * k + j] as usize
}

// Bytes 4 to 7 of record `k`, low byte first.
pub fn word(file: &[u8], k: usize) -> usize
    requires { k < records file.now }
    ensures { (result ≡ word_at file.now k) × (result < 4294967296) }
{
    byte(file, k, 4)
        + 256 * byte(file, k, 5)
        + 65536 * byte(file, k, 6)
        + 16777216 * byte(file, k, 7)
}

// An edge's two ends as one number.
pub fn key(file: &[u8], k: usize) -> usize
    requires { k < records file.now }
    ensures { (result ≡ key_at file.now k) × (result < 65536) }
{
    256 * byte(file, k, 1) + byte(file, k, 2)
}

// 0 for a type record, 1 for a vertex, 2 for an edge, 3 for no known kind. A number, as in `order` of the graph's file: the contracts compare these by size,
// and `latest` is the largest of them.
pub fn order_of(file: &[u8], k: usize) -> usize
    requires { k < records file.now }
    ensures { (result ≡ order file.now k) × (result < 4) }
{
    let b = byte(file, k, 0);
    if b == 0x54 {
        return 0;
    }
    if b == 0x56 {
        return 1;
    }
    if b == 0x45 {
        return 2;
    }
    3
}

// What a pass over the records has met: how many of each kind, and the latest order.
#[derive(Clone, Copy)]
pub struct Passed {
    pub kinds: usize,
    pub vertices: usize,
    pub edges: usize,
    pub latest: usize,
}

// A pass starts with none.
pub fn start() -> Passed
    ensures { (s : List ℕ) → Before s 0 result }
{
    Passed {
        kinds: 0,
        vertices: 0,
        edges: 0,
        latest: 0,
    }
}

// One record more is passed.
pub fn pass(file: &[u8], k: usize, p: Passed) -> Passed
    requires { (k < records file.now) × Before file.now k p }
    ensures { Before file.now (k + 1) result }
{
    let order = order_of(file, k);
    Passed {
        kinds: p.kinds + usize::from(order == 0),
        vertices: p.vertices + usize::from(order == 1),
        edges: p.edges + usize::from(order == 2),
        latest: p.latest.max(order),
    }
}

// How many records there are of each kind.
#[derive(Clone, Copy)]
pub struct Counts {
    pub kinds: usize,
    pub n: usize,
    pub edges: usize,
}

pub fn count_all(file: &[u8]) -> Counts
    ensures { Counted file.now result }
{
    let m = file.len() / 8;
    let mut p = start();
    for k in 0..m {
        p = pass(file, k, p);
    }
    Counts {
        kinds: p.kinds,
        n: p.vertices,
        edges: p.edges,
    }
}
