// What the stages of a board text name: their types, and the stages that they wait for, as edges; and the graph file of it all.
ghost use Rattle.std.specs.Prelude.{◌≤◌};

use board::Names;
use faults::{Fault, Wrong};
use graph::Refusal;

// So many edges, in ascending order.
#[derive(Clone, Copy)]
pub(crate) struct Net {
    pub edges: usize,
    pub edge: [u16; 1024],
}

// A place of the table of waits for stage u, waited for, and stage v, that waits.
fn place(u: usize, v: usize) -> usize
    ensures { result ≤ 16383 }
{
    u % 128 * 128 + v % 128
}

// Marks that stage v waits for the one that the word at the place names. There are n waits so far.
fn wait(
    t: &[u8],
    names: Names,
    v: usize,
    at: usize,
    n: usize,
    marks: &mut [bool; 16384],
) -> Result<(), Wrong> {
    let Some(u) = texts::find(t, &names.stage, names.stages, t, at) else {
        return Err(Wrong::NoStage);
    };
    let p = place(u, v);
    if marks[p] {
        return Err(Wrong::WaitTwice);
    }
    if n >= 1024 {
        return Err(Wrong::WaitMany);
    }
    marks[p] = true;
    Ok(())
}

// Marks what stage v waits for: the words from the place on. How many waits there are then.
fn waits(
    t: &[u8],
    names: Names,
    v: usize,
    first: usize,
    sum: usize,
    marks: &mut [bool; 16384],
) -> Result<usize, Fault> {
    let mut at = first;
    let mut n = sum;
    for _ in 0..t.len() {
        if !texts::is_word(t, at) {
            return Ok(n);
        }
        match wait(t, names, v, at, n, marks) {
            Ok(()) => n = n.saturating_add(1),
            Err(what) => return Err(Fault { what, at }),
        }
        at = texts::after(t, at);
    }
    Ok(n)
}

// Looks up what stage v names, whose own name stands at the place.
fn entered(
    t: &[u8],
    names: Names,
    v: usize,
    name: usize,
    sum: usize,
    marks: &mut [bool; 16384],
) -> Result<usize, Fault> {
    let kind = texts::after(t, name);
    if texts::find(t, &names.kind, names.kinds, t, kind).is_none() {
        return Err(Fault {
            what: Wrong::NoKind,
            at: kind,
        });
    }
    let wcet = texts::after(t, kind);
    waits(t, names, v, texts::after(t, wcet), sum, marks)
}

fn stages(t: &[u8], names: Names, marks: &mut [bool; 16384]) -> Result<usize, Fault> {
    let mut n = 0;
    for (v, &name) in names.stage.iter().enumerate().take(names.stages) {
        n = entered(t, names, v, name, n, marks)?;
    }
    Ok(n)
}

// The edges that are marked, in ascending order.
fn edges(marks: &[bool; 16384]) -> [u16; 1024] {
    let mut list = [0u16; 1024];
    let mut n = 0;
    for (p, &marked) in marks.iter().enumerate() {
        if marked && n < 1024 {
            list[n] = (p / 128 * 256 + p % 128) as u16;
            n += 1;
        }
    }
    list
}

// The edges of a text whose board has no fault.
pub(crate) fn of(t: &[u8], names: Names) -> Result<Net, Fault> {
    let mut marks = [false; 16384];
    let n = stages(t, names, &mut marks)?;
    Ok(Net {
        edges: n,
        edge: edges(&marks),
    })
}

// The graph file, with the edges that are in use.
fn write_with(t: &[u8], names: Names, edges: &[u16], room: &mut [u8]) -> Result<usize, Refusal> {
    let cores = board::cores(t, names);
    let kind = board::kinds(t, names);
    let wcet = board::wcets(t, names);
    writer::write(
        texts::part(&cores, 0, names.kinds),
        texts::part(&kind, 0, names.stages),
        &wcet[..names.stages.min(128)],
        edges,
        room,
    )
}

// The graph file of the text with these edges, laid in the room, or the writer's refusal.
pub(crate) fn write(t: &[u8], names: Names, net: Net, room: &mut [u8]) -> Result<usize, Refusal> {
    write_with(t, names, &net.edge[..net.edges.min(1024)], room)
}
