// What a refusal of a text, or of a graph as a text, is about: docs/STG.md has the layout.
use graph::Refusal;
use say::out;
use std::rt::Env;

// The line of a text that argument k names, counted from 1 as editors count.
fn line(rt: &impl Env, k: usize, r: Refusal) -> bool {
    let place = r.place as u64;
    let first = out::argument(rt, k) & out::text(b": line") & out::field(place + 1);
    first & out::text(b" is not as the layout has it\n")
}

// The task of a vertex's record, which stands behind those of the types.
fn task(rt: &impl Env, k: usize, types: usize, r: Refusal) -> bool {
    let place = r.place as u64;
    let types = types as u64;
    let v = place.saturating_sub(types);
    let first = out::argument(rt, k) & out::text(b": task") & out::field(v);
    first & out::text(b" has a time above 1000000, or a type that CORES has not\n")
}

pub(crate) fn of_reading(rt: &impl Env, k: usize, types: usize, kinds: usize, r: Refusal) -> bool {
    let number = r.number;
    match number {
        23 => line(rt, k, r),
        13 => {
            let first = out::text(b"KINDS:") & out::field(kinds as u64);
            first & out::text(b" types for another number of tasks\n")
        }
        4 => out::text(b"CORES: 10 types are the most\n"),
        5 => {
            let first = out::text(b"CORES: type") & out::field(r.place as u64);
            first & out::text(b" has not 1 to 16 cores\n")
        }
        7 => task(rt, k, types, r),
        8 => out::argument(rt, k) & out::text(b": more than 1024 predecessors\n"),
        9 => out::argument(rt, k) & out::text(b": a task is its own predecessor\n"),
        _ => out::argument(rt, k)
            & out::text(b": a task is its own predecessor by way of others\n"),
    }
}

// What can't be written: the file itself is accepted, and the room is enough.
pub(crate) fn of_writing() -> bool {
    out::text(
        b"such a text has three stages at least, begins with stage 0 alone and ends with the last alone, both of WCET 0\n",
    )
}
