// A file as it should be is passed once: its types, its vertices and its edges one after another, each record seen by itself. Where this
// reaches the end, no number up to 10 applies; where it does not, whoever asks has to look for the number.
#![tactic(auto)]

ghost use Rattle.std.specs.Prelude.{◌≡◌, not, ◌+◌, ◌-◌, ◌<◌, ◌≤◌, min};
ghost use Rattle.model.specs.Places.{first};
ghost use Rattle.graph.specs.File.{records};
ghost use Rattle.plain.specs.Plain.{type_row_of, vertex_row_of, edge_row_of, types_in, vertices_in, edges_in, plain_of, is_whole};

use records::{Counts, byte, key, word};

// Record k as the type k.
fn type_row(file: &[u8], k: usize) -> bool
    requires { k < records file.now }
    ensures { result ≡ type_row_of file.now k }
{
    let cores = byte(file, k, 2);
    (byte(file, k, 0) == 0x54)
        & ((byte(file, k, 1) == k)
            & ((0 < cores) & ((cores <= 16) & ((byte(file, k, 3) == 0) & (word(file, k) == 0)))))
}

// Record a + v as the vertex v, where there are a types.
fn vertex_row(file: &[u8], a: usize, v: usize) -> bool
    requires { a + v < records file.now }
    ensures { result ≡ vertex_row_of file.now a v }
{
    let k = a + v;
    (byte(file, k, 0) == 0x56)
        & ((byte(file, k, 1) == v)
            & ((byte(file, k, 2) < a) & ((byte(file, k, 3) == 0) & (word(file, k) <= 1000000))))
}

// Record k as an edge between two of n vertices.
fn edge_row(file: &[u8], k: usize, n: usize) -> bool
    requires { k < records file.now }
    ensures { result ≡ edge_row_of file.now n k }
{
    let from = byte(file, k, 1);
    let to = byte(file, k, 2);
    (byte(file, k, 0) == 0x45)
        & ((from < n)
            & ((to < n) & ((from != to) & ((byte(file, k, 3) == 0) & (word(file, k) == 0)))))
}

// How many types stand first.
fn types(file: &[u8]) -> usize
    ensures { result ≡ types_in file.now }
{
    let most = (file.len() / 8).min(10);
    for k in 0..most {
        if !type_row(file, k) {
            return k;
        }
    }
    most
}

// How many vertices stand after a types.
fn vertices(file: &[u8], a: usize) -> usize
    requires { a ≤ records file.now }
    ensures { result ≡ vertices_in file.now a }
{
    let most = (file.len() / 8 - a).min(128);
    for v in 0..most {
        if !vertex_row(file, a, v) {
            return v;
        }
    }
    most
}

// How many edges stand from record a on, each above the one before it.
fn edges(file: &[u8], a: usize, n: usize) -> usize
    requires { a ≤ records file.now }
    ensures { result ≡ edges_in file.now a n }
{
    let most = (file.len() / 8 - a).min(1024);
    let mut least: usize = 0;
    for i in 0..most {
        let edge = key(file, a + i);
        if !(edge_row(file, a + i, n) & (least <= edge)) {
            return i;
        }
        least = edge + 1;
    }
    most
}

pub fn counts(file: &[u8]) -> Counts
    ensures { result ≡ plain_of file.now }
{
    let kinds = types(file);
    let n = vertices(file, kinds);
    let edges = edges(file, kinds + n, n);
    Counts { kinds, n, edges }
}

// Whether these are all the records, with a type and a vertex among them.
pub fn whole(file: &[u8], c: Counts) -> bool
    requires { c ≡ plain_of file.now }
    ensures { result ≡ is_whole file.now c }
{
    (c.kinds != 0) & ((c.n != 0) & (c.kinds + c.n + c.edges == file.len() / 8))
}
