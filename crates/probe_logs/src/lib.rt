// The letters L and O of the probe: a log replayed, and the log of a run. Each takes a request's payload and prints the line that answers it.
#![tactic(auto)]

use graph::Refusal;
use units::Ticks;
use wire::{PRESET, PRESET_WORD};

fn finish(replayed: Result<Ticks, Refusal>) {
    match replayed {
        Ok(t) => print::given(b"replayed", t.0),
        Err(r) => print::refused(r.number, r.place),
    }
}

fn replay(file: &[u8], log: &[u8], lent: &mut [u32]) {
    finish(replay::replay(file, log, lent));
    print::lent_words(lent)
}

// With a list of so many places lent for the times.
fn replay_asked(p: &[u8]) -> Option<()> {
    let file = wire::list(p, 0)?;
    let log = wire::list(p, file.end)?;
    let room = wire::number(p, log.end)?;
    if (room.end != p.len()) | (room.value > 32768) {
        return None;
    }
    let mut lent = [PRESET_WORD; 32768];
    replay(
        &p[file.start..file.end],
        &p[log.start..log.end],
        &mut lent[..room.value as usize],
    );
    Some(())
}

pub fn replay_request(p: &[u8]) {
    replay_asked(p).unwrap_or_else(print::bad)
}

fn length(wrote: Result<usize, Refusal>) {
    match wrote {
        Ok(n) => print::given(b"log", n as u64),
        Err(r) => print::refused(r.number, r.place),
    }
}

fn log(file: &[u8], times: &[u32], lent: &mut [u8]) {
    length(logs::log(file, times, lent));
    print::lent_bytes(lent)
}

// The times laid in a list of their own, and so many bytes lent for the log.
fn log_asked(p: &[u8]) -> Option<()> {
    let file = wire::list(p, 0)?;
    let times = wire::list(p, file.end)?;
    let room = wire::number(p, times.end)?;
    if (room.end != p.len()) | ((times.end - times.start) % 4 != 0) | (room.value > 32768) {
        return None;
    }
    let mut words = [0u32; 65536];
    let mut lent = [PRESET; 32768];
    let n = wire::words(&p[times.start..times.end], &mut words);
    log(
        &p[file.start..file.end],
        &words[..n],
        &mut lent[..room.value as usize],
    );
    Some(())
}

pub fn log_request(p: &[u8]) {
    log_asked(p).unwrap_or_else(print::bad)
}
