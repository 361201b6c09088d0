// What a word of the command is given, as a graph file: one that is named, or the one of a board text.
use crate::net::Net;
use crate::{Failure, net};
use board::Names;
use graph::Refusal;
use std::rt::Env;
use texts::Sought;

// The file's length and the names.
#[derive(Clone, Copy)]
pub struct Given {
    pub n: usize,
    pub names: Names,
}

// The bytes, as far as the room goes: of a longer file only that it is longer matters.
fn laid(t: &[u8], room: &mut [u8]) -> usize {
    let n = t.len().min(room.len());
    room[..n].copy_from_slice(&t[..n]);
    n
}

// A refusal: as JSON, or in lines of which the second says what it is about.
fn refused(
    rt: &impl Env,
    k: usize,
    t: &[u8],
    names: Names,
    lists: Net,
    r: Refusal,
    json: bool,
) -> bool {
    if json {
        return say::json::refused(r);
    }
    let first = say::out::refused(r);
    first & reasons::said(rt, k, t, names, &lists.edge, lists.edges, r)
}

// The file of a board text whose names are known.
fn looked_up(
    rt: &impl Env,
    k: usize,
    t: &[u8],
    names: Names,
    json: bool,
    room: &mut [u8],
) -> Result<Given, Failure> {
    let lists = match net::of(t, names) {
        Ok(lists) => lists,
        Err(f) => return Err(crate::no(reasons::fault::of_board(rt, k, t, f, json))),
    };
    let wrote = net::write(t, names, lists, room);
    match wrote {
        Ok(n) => Ok(Given { n, names }),
        Err(r) => Err(crate::no(refused(rt, k, t, names, lists, r, json))),
    }
}

// The graph file of what argument k names, whose bytes are t, laid in the room. What is wrong with a board text is said as JSON or not.
pub fn file(
    rt: &impl Env,
    k: usize,
    t: &[u8],
    json: bool,
    room: &mut [u8],
) -> Result<Given, Failure> {
    if texts::until(t, 0, Sought::Zero) < t.len() {
        let n = laid(t, room);
        return Ok(Given {
            n,
            names: board::nameless(),
        });
    }
    match board::read(t) {
        Ok(names) => looked_up(rt, k, t, names, json, room),
        Err(flawed) => Err(crate::no(reasons::fault::of_board(rt, k, t, flawed.fault, json))),
    }
}
