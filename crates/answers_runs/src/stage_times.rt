// The execution times of a run: a text of lines `NAME TICKS`, for a board text alone, or of numbers.
use crate::run::Times;
use board::Names;
use faults::{Fault, Wrong};
use graph::Graph;
use texts::Sought;

// Every stage at its WCET, which no text says.
pub(crate) fn full(g: Graph) -> Times {
    let mut ticks = [0u32; 129];
    ticks[..128].copy_from_slice(&g.wcet);
    Times {
        n: g.n,
        ticks,
        start: [0; 129],
        end: [0; 129],
    }
}

fn none() -> Times {
    Times {
        n: 0,
        ticks: [0; 129],
        start: [0; 129],
        end: [0; 129],
    }
}

// The times with one more, which stands at the place.
fn with(mut times: Times, v: usize, t: &[u8], at: usize, ticks: u32) -> Times {
    if v < 129 {
        times.ticks[v] = ticks;
        times.start[v] = at;
        times.end[v] = texts::until(t, at, Sought::End);
    }
    times
}

// The time of stage v, whose name stands at the place of the text. One that has a time ends somewhere.
fn clocked(t: &[u8], v: usize, name: usize, times: Times) -> Result<Times, Fault> {
    let ticks = faults::of_number_alone(t, name, 4294967295)?;
    if times.end[v % 128] != 0 {
        return Err(Fault {
            what: Wrong::TimeTwice,
            at: name,
        });
    }
    Ok(with(times, v, t, texts::after(t, name), ticks))
}

// The line `NAME TICKS` whose first word stands at the place; the names are those of the board text.
fn line(t: &[u8], board: &[u8], names: Names, first: usize, times: Times) -> Result<Times, Fault> {
    match texts::find(board, &names.stage, names.stages, t, first) {
        Some(v) => clocked(t, v, first, times),
        None => Err(Fault {
            what: Wrong::NoStage,
            at: first,
        }),
    }
}

// By names. A stage that is not named takes its WCET.
fn named(t: &[u8], board: &[u8], names: Names, g: Graph) -> Result<Times, Fault> {
    let mut times = full(g);
    let mut at = 0;
    while at < t.len() {
        let first = texts::until(t, at, Sought::Word);
        // A line without a word is passed over here: handing the times on moves 2.6 KB, and a text may have some 65,500 such lines.
        if texts::is_word(t, first) {
            times = line(t, board, names, first, times)?;
        }
        at = texts::next(t, at);
    }
    Ok(times)
}

// One number more, at the place.
fn with_number(times: Times, t: &[u8], at: usize, ticks: u32) -> Times {
    let n = times.n;
    let mut next = with(times, n, t, at, ticks);
    next.n = n.min(128) + 1;
    next
}

// Where the next word begins, from the place on, whatever its line; the text's end where there is none.
fn start(t: &[u8], at: usize) -> usize {
    let mut i = at;
    while i < t.len() {
        let w = texts::until(t, i, Sought::Word);
        if texts::is_word(t, w) {
            return w;
        }
        i = texts::next(t, i);
    }
    t.len()
}

// Numbers alone, as they stand.
fn listed(t: &[u8]) -> Result<Times, Fault> {
    let mut times = none();
    let mut at = start(t, 0);
    for _ in 0..t.len() {
        if at >= t.len() {
            return Ok(times);
        }
        let ticks = faults::of_number(t, at, 4294967295)?;
        times = with_number(times, t, at, ticks);
        at = start(t, texts::until(t, at, Sought::End));
    }
    Ok(times)
}

// Whether the text's first word names a stage.
fn by_names(t: &[u8], board: &[u8], names: Names) -> bool {
    texts::find(board, &names.stage, names.stages, t, start(t, 0)).is_some()
}

// The times that a text gives for the stages of a graph; the board text has the names.
pub(crate) fn of(t: &[u8], board: &[u8], names: Names, g: Graph) -> Result<Times, Fault> {
    faults::of_text(t)?;
    if by_names(t, board, names) {
        return named(t, board, names, g);
    }
    listed(t)
}
