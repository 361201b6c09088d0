// The list of what was done, record by record.
ghost use Rattle.std.specs.Prelude.{◌≡◌, ◌++◌, ◌*◌, ◌<◌, ◌≤◌, length, drop};
ghost use Rattle.graph.specs.File.{records};
ghost use Rattle.mends.specs.Mends.{seat};
ghost use Rattle.mends.specs.Listed.{list_of};
ghost use Rattle.mend_keys.specs.Keys.{Known};
ghost use Rattle.mend_record.specs.Laying.{fate_of};

use mend_keys::{plain, rank_of};
use mend_record::{Fate, note_fate, stray};

// What is done to record `k`, where `stood` kept edges stand before it.
fn done_to(
    file: &[u8],
    t: &[u64; 1024],
    before: &[u16; 1024],
    marks: &[u8; 1162],
    k: usize,
    stood: usize,
) -> Fate
    requires { Known file.now t.now before.now marks.now × (k < records file.now) × (stood ≡ seat file.now k) }
    ensures { result ≡ fate_of file.now k }
{
    let order = records::order_of(file, k);
    let straight = plain(file, k);
    let kept = marks[k] == 1;
    let place = rank_of(file, t, before, k);
    let stray = stray(file, k);
    Fate {
        stray,
        looped: (order == 2) & !straight,
        doubled: straight & !kept,
        moved: kept & (stood != place),
    }
}

// Notes all that is done, and hands back how long the list is.
pub(crate) fn note_all(
    file: &[u8],
    t: &[u64; 1024],
    before: &[u16; 1024],
    marks: &[u8; 1162],
    list: &mut [u8],
) -> usize
    requires { Known file.now t.now before.now marks.now × (16 * records file.now ≤ length list.old) }
    ensures { (result ≡ length (list_of file.now)) × (list.new ≡ list_of file.now ++ drop (length (list_of file.now)) list.old) }
{
    let mut n: usize = 0;
    let mut stood: usize = 0;
    for k in 0..file.len() / 8 {
        let f = done_to(file, t, before, marks, k, stood);
        n = note_fate(list, n, k, f);
        stood += usize::from(marks[k] == 1);
    }
    n
}
