// The records of a log, and its stretches: from a start to the stop after it one stage runs, on one core.
ghost use Rattle.std.specs.Prelude.{◌<◌};

use graph::Graph;

// The record that starts it, its stage and that stage's type, its core, and from which instant it runs up to which.
#[derive(Clone, Copy)]
pub(crate) struct Stretch {
    pub start: usize,
    pub stage: usize,
    pub kind: usize,
    pub core: u64,
    pub from: u64,
    pub to: u64,
}

// A log in form of a graph, and the core of each of its records.
#[derive(Clone, Copy)]
pub(crate) struct Log<'a> {
    pub g: &'a Graph,
    pub log: &'a [u8],
    pub on: &'a [u8],
}

// The stage of record k.
pub(crate) fn stage(log: &[u8], k: usize) -> usize
    ensures { result < 128 }
{
    if k < log.len() / 8 {
        return records::byte(log, k, 1) % 128;
    }
    0
}

// The instant of record k.
pub(crate) fn instant(log: &[u8], k: usize) -> u64 {
    if k < log.len() / 8 {
        return records::word(log, k) as u64;
    }
    0
}

// The instant of the last record; 0 where there is none.
pub(crate) fn finish(log: &[u8]) -> u64 {
    match (log.len() / 8).checked_sub(1) {
        Some(last) => instant(log, last),
        None => 0,
    }
}

// The type of stage v.
pub(crate) fn kind(g: &Graph, v: usize) -> usize {
    if v < 128 { g.kind[v] as usize } else { 0 }
}

impl Log<'_> {
    // The type of the stage of record k.
    pub(crate) fn kind(self, k: usize) -> usize {
        kind(self.g, stage(self.log, k))
    }

    // The core of record k.
    pub(crate) fn core(self, k: usize) -> u64 {
        self.on.get(k).map_or(0, |core| *core as u64)
    }

    // The stretch from one record to another.
    pub(crate) fn between(self, start: usize, stop: usize) -> Stretch {
        Stretch {
            start,
            stage: stage(self.log, stop),
            kind: self.kind(stop),
            core: self.core(stop),
            from: instant(self.log, start),
            to: instant(self.log, stop),
        }
    }
}
