// `plan mend FILE OUT`: a hand-edited file mended, and what was done, a line for each mend. There is no answer where the system took less than all of it:
// no contract can say it.
#![tactic(auto)]

mod lines;
mod output;

use graph::Refusal;
use input::Failure;
use std::rt::{Env, Files};

// The arguments that name the file and where the mended one goes.
const FILE: usize = 2;

const OUT: usize = 3;

// What the refusal is about: `mend` has no others, as the rooms are enough.
fn reason(rt: &impl Env, r: Refusal) -> bool {
    let number = r.number;
    match number {
        1 => say::out::argument(rt, FILE)
            & say::out::text(b": not a number of records of 8 bytes, or more than 9296 bytes\n"),
        2 => {
            let first = say::out::argument(rt, FILE)
                & say::out::text(b": record")
                & say::out::field(r.place as u64);
            first & say::out::text(b" is of no known kind\n")
        }
        _ => {
            let first = say::out::argument(rt, FILE)
                & say::out::text(b": record")
                & say::out::field(r.place as u64);
            first & say::out::text(b" stands behind one of a later kind\n")
        }
    }
}

// The mended file goes first: where it can't be written, nothing is said to have been done.
fn kept(rt: &(impl Env + Files), file: &[u8], out: &[u8], list: &[u8]) -> Result<(), Failure> {
    output::new(rt, OUT, out)?;
    input::answer(lines::all(file, out, list))
}

// The mended file is no longer than the file, and each record has two mends at most.
fn mended(rt: &(impl Env + Files), file: &[u8]) -> Result<(), Failure> {
    let mut out = [0u8; 9304];
    let mut list = [0u8; 18608];
    let got = mend::mend(file, &mut out, &mut list);
    match got {
        Ok(sizes) => {
            let to = sizes.file;
            let listed = sizes.list;
            kept(
                rt,
                file,
                texts::part(&out, 0, to),
                texts::part(&list, 0, listed),
            )
        }
        Err(r) => {
            let first = say::out::refused(r);
            Err(input::no(first & reason(rt, r)))
        }
    }
}

// Of a longer file only that it is longer matters.
pub fn answer(rt: &(impl Env + Files + Input)) -> Result<(), Failure> {
    if input::is_standard(rt, OUT) {
        return Err(input::wrong(b"OUT is a file, and not standard output"));
    }
    let mut space = [0u8; 9304];
    let n = input::read(rt, FILE, &mut space)?;
    mended(rt, texts::part(&space, 0, n))
}
