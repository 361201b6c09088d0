// What a rewrite of each stage would gain, in parts and in whole ticks.
use crate::{names, out};
use board::Names;
use units::Parts;

// Rounded down: no gain is promised larger than it is.
fn stage(t: &[u8], of: Names, v: usize, gain: u64) -> bool {
    let ticks = Parts(gain).ticks();
    names::stage(t, of, v) & out::field(gain) & out::field(ticks.0) & out::end()
}

// A line for each vertex of the list, in its order.
pub fn lines(t: &[u8], of: Names, list: &[u8], gain: &[u64; 128]) -> bool {
    let mut written = true;
    for &v in list {
        let v = usize::from(v);
        written &= stage(t, of, v, gain.get(v).copied().unwrap_or(0));
    }
    written
}
