// `plan from-stg TEXT CORES KINDS`: the graph file of a Standard Task Graph text. `plan to-stg FILE`: such a text of an accepted file. There is no
// answer where the system took less than all of it: no contract can say it.
#![tactic(auto)]

mod numbers;
mod reason;

use input::Failure;
use std::rt::{Env, Files};

// The arguments that name the text, the cores of each type and the type of each task.
const TEXT: usize = 2;

const CORES: usize = 3;

const KINDS: usize = 4;

// The answer for a text of at most 65,536 bytes, or of one more.
fn made(rt: &impl Env, text: &[u8], cores: &[u8], kinds: &[u8]) -> Result<(), Failure> {
    let mut room = [0u8; 9304];
    let wrote = stg::read(text, cores, kinds, &mut room);
    match wrote {
        Ok(n) => {
            let file = texts::part(&room, 0, n);
            input::answer(say::out::text(file))
        }
        Err(r) => {
            let first = say::out::refused(r);
            let told = reason::of_reading(rt, TEXT, cores.len(), kinds.len(), r);
            Err(input::no(first & told))
        }
    }
}

// One type is meant for every task; how many there are is what the text begins with.
fn with_lists(rt: &impl Env, text: &[u8], cores: &[u8], kinds: &[u8]) -> Result<(), Failure> {
    if kinds.len() != 1 {
        return made(rt, text, cores, kinds);
    }
    let all = [kinds[0]; 128];
    made(rt, text, cores, texts::part(&all, 0, numbers::tasks(text)))
}

fn with_words(rt: &impl Env, text: &[u8], cores: &[u8], kinds: &[u8]) -> Result<(), Failure> {
    let mut core_list = [0u8; 2048];
    let c = match numbers::listed(cores, &mut core_list) {
        Ok(c) => c,
        Err(wrong) => return Err(input::no(wrong.said(b"CORES", cores))),
    };
    let mut kind_list = [0u8; 2048];
    let k = match numbers::listed(kinds, &mut kind_list) {
        Ok(k) => k,
        Err(wrong) => return Err(input::no(wrong.said(b"KINDS", kinds))),
    };
    with_lists(
        rt,
        text,
        texts::part(&core_list, 0, c),
        texts::part(&kind_list, 0, k),
    )
}

pub fn read(rt: &(impl Env + Files + Input)) -> Result<(), Failure> {
    let mut space = [0u8; 65537];
    let n = input::read(rt, TEXT, &mut space)?;
    let mut cores = io::buffer();
    let c = input::argument(rt, CORES, &mut cores);
    let mut kinds = io::buffer();
    let k = input::argument(rt, KINDS, &mut kinds);
    let (Some(c), Some(k)) = (c, k) else {
        return Err(input::wrong(b"CORES and KINDS have at most 4096 bytes"));
    };
    with_words(
        rt,
        texts::part(&space, 0, n),
        texts::part(&cores, 0, c),
        texts::part(&kinds, 0, k),
    )
}

// The longest text of an accepted file is far shorter than the room.
pub fn written(file: &[u8]) -> Result<(), Failure> {
    let mut room = [0u8; 65536];
    let wrote = stg_writer::write(file, &mut room);
    match wrote {
        Ok(n) => {
            let text = texts::part(&room, 0, n);
            input::answer(say::out::text(text))
        }
        Err(r) => {
            let first = say::out::refused(r);
            Err(input::no(first & reason::of_writing()))
        }
    }
}
