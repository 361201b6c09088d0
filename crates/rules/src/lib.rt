// The rows 1 to 10 of document 01's table of numbers, each as a test of a record or of the counts.
//
// The table speaks of records before the one at fault: "after a vertex or edge", "its place among its kind". A scan carries
// what these need of the records that it passed, so that each test looks at one record, or two.
#![tactic(auto)]

ghost use Rattle.std.specs.Prelude.{◌≡◌, ◌<◌};
ghost use Rattle.model.specs.Places.{count, largest};
ghost use Rattle.graph.specs.File.{records, order, is_order, many};
ghost use Rattle.graph.specs.Rules.{rule1, rule2, rule3, rule5, rule7, rule9, rule10};
ghost use Rattle.records.specs.Passing.{Counted, Before};
ghost use Rattle.rules.specs.Rows.{of_counts, of_record};

use records::{Counts, Passed, byte, key, order_of, word};

// Number 1.
pub fn wrong_length(file: &[u8]) -> bool
    ensures { result ≡ rule1 file.now }
{
    let len = file.len();
    (len % 8 != 0) | (9296 < len)
}

// Number 2: no known kind, or a byte that should be 0.
fn stray(file: &[u8], k: usize) -> bool
    requires { k < records file.now }
    ensures { result ≡ rule2 file.now k }
{
    let order = order_of(file, k);
    let spare = byte(file, k, 3);
    let word = word(file, k);
    (order == 3) | ((spare != 0) | ((order != 1) & (word != 0)))
}

// Number 3: an order below the latest of the records before.
fn late(file: &[u8], k: usize, latest: usize) -> bool
    requires { (k < records file.now) × (latest ≡ largest (order file.now) k) }
    ensures { result ≡ rule3 file.now k }
{
    order_of(file, k) < latest
}

// Number 5: a type record's number or cores.
fn wrong_kind(file: &[u8], k: usize, passed: usize) -> bool
    requires { (k < records file.now) × (passed ≡ count (is_order file.now 0) k) }
    ensures { result ≡ rule5 file.now k }
{
    let order = order_of(file, k);
    let number = byte(file, k, 1);
    let cores = byte(file, k, 2);
    (order == 0) & ((number != passed) | ((cores == 0) | (16 < cores)))
}

// Number 7: a vertex record's number, type or WCET.
fn wrong_vertex(file: &[u8], k: usize, passed: usize, kinds: usize) -> bool
    requires { (k < records file.now) × (passed ≡ count (is_order file.now 1) k) × (kinds ≡ many file.now 0) }
    ensures { result ≡ rule7 file.now k }
{
    let order = order_of(file, k);
    let number = byte(file, k, 1);
    let kind = byte(file, k, 2);
    let wcet = word(file, k);
    (order == 1) & ((number != passed) | ((kinds <= kind) | (1000000 < wcet)))
}

// Number 9: an edge's ends.
fn wrong_edge(file: &[u8], k: usize, n: usize) -> bool
    requires { (k < records file.now) × (n ≡ many file.now 1) }
    ensures { result ≡ rule9 file.now k }
{
    let order = order_of(file, k);
    let from = byte(file, k, 1);
    let to = byte(file, k, 2);
    (order == 2) & ((n <= from) | ((n <= to) | (from == to)))
}

// Number 10: an edge not above the one before it.
fn not_above(file: &[u8], k: usize) -> bool
    requires { k < records file.now }
    ensures { result ≡ rule10 file.now k }
{
    if k == 0 {
        return false;
    }
    let order = order_of(file, k);
    let before = order_of(file, k - 1);
    (order == 2) & ((before == 2) & (key(file, k) <= key(file, k - 1)))
}

// Whether record `k` is at fault by number 2, 3, 5, 7, 9 or 10. The numbers are the table's own, by which the reader's `judge_from` and every refusal go.
pub fn record_fails(file: &[u8], number: u32, k: usize, p: Passed, c: Counts) -> bool
    requires { (k < records file.now) × Before file.now k p × Counted file.now c }
    ensures { result ≡ of_record file.now number k }
{
    match number {
        2 => stray(file, k),
        3 => late(file, k, p.latest),
        5 => wrong_kind(file, k, p.kinds),
        7 => wrong_vertex(file, k, p.vertices, c.kinds),
        9 => wrong_edge(file, k, c.n),
        _ => not_above(file, k),
    }
}

// Whether the counts are at fault by number 4, 6 or 8.
pub fn counts_fail(number: u32, c: Counts) -> bool
    ensures { result ≡ of_counts c number }
{
    let kinds = c.kinds;
    let n = c.n;
    let edges = c.edges;
    match number {
        4 => (kinds == 0) | (10 < kinds),
        6 => (n == 0) | (128 < n),
        _ => 1024 < edges,
    }
}
