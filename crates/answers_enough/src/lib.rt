// `plan enough FILE TYPE TICKS`: how many cores of a type are enough for NEW-B-1 to be within so many ticks, all else as declared. As in `answers`, t are the
// bytes that gave the accepted file, with the names that they have.
#![tactic(auto)]

use board::Names;
use graph::Refusal;
use input::{Failure, word};
use say::out;
use std::rt::Env;

// The arguments that name the type and the limit.
const TYPE: usize = 3;

const TICKS: usize = 4;

// What the planner's refusal is about: a type that the graph doesn't have, or else a limit that is too low for any number of cores.
fn reason(w: &[u8], r: Refusal) -> bool {
    if r.number == 25 {
        return out::text(b"TYPE: the graph has no type \"") & out::text(w) & out::text(b"\"\n");
    }
    out::text(b"TICKS: 16 cores of type \"") & out::text(w) & out::text(b"\" are too few\n")
}

fn answer(file: &[u8], w: &[u8], k: u32, limit: u32) -> Result<(), Failure> {
    match enough::enough(file, k, limit) {
        Ok(cores) => {
            let cores = u64::from(cores);
            input::answer(out::text(b"cores") & out::field(cores) & out::end())
        }
        Err(r) => {
            let first = out::refused(r);
            Err(input::no(first & reason(w, r)))
        }
    }
}

// The type is looked at before the limit.
fn with_words(t: &[u8], names: Names, file: &[u8], w: &[u8], limit: &[u8]) -> Result<(), Failure> {
    let k = match word::named(t, &names.kind, names.kinds, w) {
        Ok(k) => k,
        Err(what) => return Err(input::no(reasons::fault::said_argument(b"TYPE", what, w))),
    };
    let ticks = match word::number(limit) {
        Ok(ticks) => ticks,
        Err(what) => return Err(input::no(reasons::fault::said_argument(b"TICKS", what, limit))),
    };
    answer(file, w, k, ticks)
}

pub fn fewest(rt: &impl Env, t: &[u8], names: Names, file: &[u8]) -> Result<(), Failure> {
    let mut kind = io::buffer();
    let mut limit = io::buffer();
    let k = input::argument(rt, TYPE, &mut kind);
    let l = input::argument(rt, TICKS, &mut limit);
    let (Some(k), Some(l)) = (k, l) else {
        return Err(input::wrong(b"TYPE and TICKS have at most 4096 bytes"));
    };
    with_words(
        t,
        names,
        file,
        texts::part(&kind, 0, k),
        texts::part(&limit, 0, l),
    )
}
