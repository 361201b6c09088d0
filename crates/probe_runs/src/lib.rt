// The letters S, T, I, X and D of the probe: a run started; one tick of a record, by value and in place; a whole run; whether a run ends by a
// tick. Each takes a request's payload and prints the line that answers it. A run record travels as 672 bytes: n (8), instant (8), 128
// remainders (4 each), two words (8 each), 128 numbers of unfinished predecessors (a byte each).
#![tactic(auto)]

use graph::Refusal;
use tick::{Run, Step};
use units::Ticks;
use vset::Vset;
use wire::PRESET_WORD;

// The record that a payload holds, if it holds one and nothing else.
fn record_of(r: &[u8]) -> Option<Run> {
    if r.len() != 672 {
        return None;
    }
    let n = wire::number(r, 0)?;
    let instant = wire::number(r, 8)?;
    let low = wire::number(r, 528)?;
    let high = wire::number(r, 536)?;
    let mut left = [0u32; 128];
    wire::words(&r[16..528], &mut left);
    let mut waiting = [0u8; 128];
    waiting.copy_from_slice(&r[544..]);
    Some(Run {
        n: n.value as usize,
        instant: instant.value,
        left,
        ran: Vset {
            lo: low.value,
            hi: high.value,
        },
        waiting,
    })
}

// ` : `, the record, and the line's end.
fn record(run: Run) {
    let left = run.left;
    let waiting = run.waiting;
    print::given(b" :", run.n as u64);
    print::field(run.instant);
    print::words(&left);
    print::field(run.ran.lo);
    print::field(run.ran.hi);
    print::bytes(&waiting);
    print::text(b"\n")
}

// What stands beside a refused start: zero and unmarked throughout.
fn unmarked() -> Run {
    Run {
        n: 0,
        instant: 0,
        left: [0; 128],
        ran: Vset { lo: 0, hi: 0 },
        waiting: [0; 128],
    }
}

fn start(file: &[u8], times: &[u32]) {
    match schedule::start(file, times) {
        Ok(run) => {
            print::text(b"started");
            record(run)
        }
        Err(r) => {
            print::refused(r.number, r.place);
            record(unmarked())
        }
    }
}

// The times of a payload, laid in a list of their own, and the start that they give.
fn start_asked(p: &[u8]) -> Option<()> {
    let file = wire::list(p, 0)?;
    let times = wire::list(p, file.end)?;
    if (times.end != p.len()) | ((times.end - times.start) % 4 != 0) {
        return None;
    }
    let mut words = [0u32; 65536];
    let n = wire::words(&p[times.start..times.end], &mut words);
    start(&p[file.start..file.end], &words[..n]);
    Some(())
}

pub fn start_request(p: &[u8]) {
    start_asked(p).unwrap_or_else(print::bad)
}

fn report(what: Result<Step, Refusal>, run: Run) {
    match what {
        Ok(Step::Moved) => print::text(b"moved"),
        Ok(Step::Done) => print::text(b"done"),
        Err(r) => print::refused(r.number, r.place),
    }
    record(run)
}

// One tick by value, or in place.
fn tick(run: Run, file: &[u8], in_place: bool) {
    let ticked = if in_place {
        schedule::ticked_in_place(run, file)
    } else {
        schedule::tick(run, file)
    };
    let what = ticked.report;
    let next = ticked.run;
    report(what, next)
}

fn tick_asked(p: &[u8], in_place: bool) -> Option<()> {
    let file = wire::list(p, 0)?;
    let r = wire::list(p, file.end)?;
    if r.end != p.len() {
        return None;
    }
    let run = record_of(&p[r.start..r.end])?;
    tick(run, &p[file.start..file.end], in_place);
    Some(())
}

pub fn tick_request(p: &[u8], in_place: bool) {
    tick_asked(p, in_place).unwrap_or_else(print::bad)
}

fn finish(played: Result<Ticks, Refusal>) {
    match played {
        Ok(t) => print::given(b"finish", t.0),
        Err(r) => print::refused(r.number, r.place),
    }
}

fn whole(file: &[u8], times: &[u32], lent: &mut [u32]) {
    finish(schedule::run(file, times, lent));
    print::lent_words(lent)
}

// The same for a whole run, with a list of so many places lent to it.
fn run_asked(p: &[u8]) -> Option<()> {
    let file = wire::list(p, 0)?;
    let times = wire::list(p, file.end)?;
    let room = wire::number(p, times.end)?;
    if (room.end != p.len()) | ((times.end - times.start) % 4 != 0) | (room.value > 32768) {
        return None;
    }
    let mut words = [0u32; 65536];
    let mut finishes = [PRESET_WORD; 32768];
    let n = wire::words(&p[times.start..times.end], &mut words);
    whole(
        &p[file.start..file.end],
        &words[..n],
        &mut finishes[..room.value as usize],
    );
    Some(())
}

pub fn run_request(p: &[u8]) {
    run_asked(p).unwrap_or_else(print::bad)
}

// A refusal stands before what is beside it.
fn told(yes: bool, played: Ticks) {
    if yes {
        print::given(b"yes played", played.0);
    } else {
        print::given(b"no played", played.0);
    }
    print::text(b"\n")
}

// Times and a tick of 32 bits; a wider one is no request.
fn late_asked(p: &[u8]) -> Option<()> {
    let file = wire::list(p, 0)?;
    let times = wire::list(p, file.end)?;
    let tick = wire::number(p, times.end)?;
    if (tick.end != p.len()) | ((times.end - times.start) % 4 != 0) {
        return None;
    }
    let d = u32::try_from(tick.value).ok()?;
    let mut words = [0u32; 65536];
    let n = wire::words(&p[times.start..times.end], &mut words);
    match late::late(&p[file.start..file.end], &words[..n], d) {
        Ok(r) => told(r.yes, r.played),
        Err(r) => {
            print::refused(r.number, r.place);
            print::text(b" ");
            told(false, Ticks(0))
        }
    }
    Some(())
}

pub fn late_request(p: &[u8]) {
    late_asked(p).unwrap_or_else(print::bad)
}
