// The lists of a file, into tables that are lent and zero.
ghost use Rattle.std.specs.Prelude.{◌≡◌, ◌+◌, ◌≤◌, replicate};
ghost use Rattle.model.specs.Places.{padded};
ghost use Rattle.graph.specs.File.{records, column, words, keys};

use records::{byte, key, word};

// Byte 2 of `n` records from `base` on: the cores of each type, or the types of the vertices.
pub(crate) fn column_of<const N: usize>(file: &[u8], base: usize, n: usize, a: &mut [u8; N])
    requires n_bound { (n ≤ N) × (base + n ≤ records file.now) }
    requires a_value { a.old ≡ replicate N 0 }
    ensures { a.new ≡ padded N (column file.now base 2) n }
{
    for i in 0..n {
        a[i] = byte(file, base + i, 2) as u8;
    }
}

pub(crate) fn wcet_of(file: &[u8], base: usize, n: usize, a: &mut [u32; 128])
    requires n_bound { (n ≤ 128) × (base + n ≤ records file.now) }
    requires a_value { a.old ≡ replicate 128 0 }
    ensures { a.new ≡ padded 128 (words file.now base) n }
{
    for i in 0..n {
        a[i] = word(file, base + i) as u32;
    }
}

// An edge is from * 256 + to.
pub(crate) fn edge_of(file: &[u8], base: usize, n: usize, a: &mut [u16; 1024])
    requires n_bound { (n ≤ 1024) × (base + n ≤ records file.now) }
    requires a_value { a.old ≡ replicate 1024 0 }
    ensures { a.new ≡ padded 1024 (keys file.now base) n }
{
    for i in 0..n {
        a[i] = key(file, base + i) as u16;
    }
}
