// Mends one record: whether a byte of it that must be 0 isn't, the record with these bytes cleared, laying it over a buffer, and noting what
// is done to it.
#![tactic(auto)]

ghost use Rattle.std.specs.Prelude.{◌≡◌, true, not, ◌&&◌, ◌||◌, ◌+◌, ◌*◌, ◌<◌, ◌≤◌, eqb, ltb, length};
ghost use Rattle.model.specs.Places.{pick, bit, table};
ghost use Rattle.graph.specs.File.{records};
ghost use Rattle.mends.specs.Mends.{stray};
ghost use Rattle.mends.specs.Mended.{byte_from, everywhere};
ghost use Rattle.mend_record.specs.Laying.{put, entry_bytes, notes};

// Byte 3, and bytes 4 to 7 of all but a vertex.
fn must_be_zero(order: usize, j: usize) -> bool
    ensures { result ≡ eqb j 3 || (ltb 3 j && not (eqb order 1)) }
{
    (j == 3) | ((3 < j) & (order != 1))
}

fn zero_if(b: u8, on: bool) -> u8
    ensures { result ≡ pick on 0 b }
{
    if on { 0 } else { b }
}

pub fn cleared(file: &[u8], k: usize) -> [u8; 8]
    requires { k < records file.now }
    ensures { (result ≡ table (byte_from file.now everywhere k) 8) × (length result ≡ 8) }
{
    let order = records::order_of(file, k);
    let mut a = [0u8; 8];
    for j in 0..8 {
        let on = must_be_zero(order, j);
        a[j] = zero_if(file[8 * k + j], on);
    }
    a
}

pub fn stray(file: &[u8], k: usize) -> bool
    requires { k < records file.now }
    ensures { result ≡ stray file.now k }
{
    let order = records::order_of(file, k);
    let spare = records::byte(file, k, 3);
    let word = records::word(file, k);
    (spare != 0) | ((order != 1) & (word != 0))
}

// Lays 8 bytes over a buffer, where `on` holds.
pub fn put(buffer: &mut [u8], at: usize, r: &[u8; 8], on: bool)
    requires { on ≡ true → at + 8 ≤ length buffer.old }
    ensures { buffer.new ≡ put buffer.old at r.now on }
{
    if on {
        copies::copy(r, &mut buffer[at..]);
    }
}

// What is done to a record.
#[derive(Clone, Copy)]
pub struct Fate {
    pub stray: bool,
    pub looped: bool,
    pub doubled: bool,
    pub moved: bool,
}

// A record of the list: the mend's letter, the record's number low byte first, five zero bytes.
fn entry(letter: u8, k: usize) -> [u8; 8]
    requires { k < 65536 }
    ensures { (result ≡ entry_bytes letter k) × (length result ≡ 8) }
{
    let low = (k % 256) as u8;
    let high = (k / 256) as u8;
    [letter, low, high, 0, 0, 0, 0, 0]
}

// Notes a mend of record `k` at `n`, where `on` holds, and hands back where the next one goes.
fn note(list: &mut [u8], n: usize, letter: u8, k: usize, on: bool) -> usize
    requires { (k < 65536) × (n ≤ 20000) × (on ≡ true → n + 8 ≤ length list.old) }
    ensures { (result ≡ n + 8 * bit on) × (list.new ≡ put list.old n (entry_bytes letter k) on) × (length list.new ≡ length list.old) }
{
    let r = entry(letter, k);
    put(list, n, &r, on);
    if on { n + 8 } else { n }
}

// Notes what is done to record `k`.
pub fn note_fate(list: &mut [u8], n: usize, k: usize, f: Fate) -> usize
    requires { (k < 65536) × (n ≤ 18600) × (n + 16 ≤ length list.old) × (bit f.stray + bit f.looped + bit f.doubled + bit f.moved ≤ 2) }
    ensures { (result ≡ n + 8 * bit f.stray + 8 * bit f.looped + 8 * bit f.doubled + 8 * bit f.moved) × (list.new ≡ notes list.old n k f) }
{
    let a = note(list, n, b'C', k, f.stray);
    let b = note(list, a, b'D', k, f.looped);
    let c = note(list, b, b'X', k, f.doubled);
    note(list, c, b'M', k, f.moved)
}
