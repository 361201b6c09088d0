// What was done, a line for each record of the list.
use say::out;

// Byte j of record k, where it is there.
fn byte(t: &[u8], k: usize, j: usize) -> u8 {
    let record = texts::part(t, 8 * (k % 4096), t.len());
    record.get(j).copied().unwrap_or(0)
}

// The edge that record k of a file says.
fn edge(file: &[u8], k: usize) -> bool {
    let first = out::text(b": the edge from") & out::field(u64::from(byte(file, k, 1)));
    first & out::text(b" to") & out::field(u64::from(byte(file, k, 2)))
}

// The record of the mended file that is the same edge.
fn found(mended: &[u8], u: u8, v: u8) -> usize {
    let n = mended.len() / 8;
    let is_it = |&k: &usize| {
        (byte(mended, k, 0) == b'E') & (byte(mended, k, 1) == u) & (byte(mended, k, 2) == v)
    };
    (0..n).find(is_it).unwrap_or(n)
}

// One mend of record k, by its letter.
fn line(letter: u8, k: usize, file: &[u8], mended: &[u8]) -> bool {
    let first = out::text(b"record") & out::field(k as u64);
    match letter {
        b'C' => first & out::text(b": what must be 0 was cleared\n"),
        b'D' => {
            let edge = first
                & out::text(b": the edge from")
                & out::field(u64::from(byte(file, k, 1)));
            edge & out::text(b" to itself was dropped\n")
        }
        b'X' => first & edge(file, k) & out::text(b" was dropped: it stands there before\n"),
        _ => {
            let to = found(mended, byte(file, k, 1), byte(file, k, 2));
            first
                & edge(file, k)
                & out::text(b" was moved to record")
                & out::field(to as u64)
                & out::end()
        }
    }
}

pub(crate) fn all(file: &[u8], mended: &[u8], list: &[u8]) -> bool {
    let n = list.len() / 8;
    if n == 0 {
        return out::text(b"nothing to mend\n");
    }
    let mut written = true;
    for i in 0..n {
        let k = u16::from_le_bytes([byte(list, i, 1), byte(list, i, 2)]);
        written &= line(byte(list, i, 0), usize::from(k), file, mended);
    }
    written
}
