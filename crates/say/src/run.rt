// The finish of a run, and each stage's finish instant.
use crate::{names, out};
use board::Names;

fn stage(t: &[u8], of: Names, v: usize, instant: u32) -> bool {
    names::stage(t, of, v) & out::field(u64::from(instant)) & out::end()
}

pub fn lines(t: &[u8], of: Names, finish: u64, instants: &[u32]) -> bool {
    let mut written = out::text(b"finish") & out::field(finish) & out::end();
    for (v, &instant) in instants.iter().enumerate() {
        written &= stage(t, of, v, instant);
    }
    written
}

// Whether it ends by a tick, and the ticks played.
pub fn late(yes: bool, played: u64) -> bool {
    let word = if yes {
        out::text(b"yes played")
    } else {
        out::text(b"no played")
    };
    word & out::field(played) & out::end()
}
