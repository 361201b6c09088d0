// What a refused log has wrong: docs/LOG.md has the rules.
use board::Names;
use graph::Refusal;
use say::{names, out};
use std::rt::Env;

// Byte i of record k; 0 where there is none.
fn byte(log: &[u8], k: usize, i: usize) -> u8 {
    let at = (k % 8192) * 8 + i % 8;
    log.get(at).copied().unwrap_or(0)
}

fn instant(log: &[u8], k: usize) -> u32 {
    u32::from_le_bytes([
        byte(log, k, 4),
        byte(log, k, 5),
        byte(log, k, 6),
        byte(log, k, 7),
    ])
}

fn quoted(t: &[u8], of: Names, v: usize) -> bool {
    out::text(b"\"") & names::stage(t, of, v) & out::text(b"\"")
}

// A record, its stage, and when.
fn start(log: &[u8], t: &[u8], of: Names, k: usize) -> bool {
    let first = out::text(b"record") & out::field(k as u64) & out::text(b": ");
    let stage = usize::from(byte(log, k, 1));
    let when = u64::from(instant(log, k));
    first & quoted(t, of, stage) & out::text(b" starts at") & out::field(when)
}

// Whether record 0 starts one of n stages, as it should.
fn begins(log: &[u8], n: usize) -> bool {
    let known = (byte(log, 0, 0) == b'S') & (usize::from(byte(log, 0, 1)) < n);
    let spare = (byte(log, 0, 2) != 0) | (byte(log, 0, 3) != 0);
    known & !spare & (instant(log, 0) <= 128000000)
}

// A wrong length, the first record at fault, or, where record 0 is none, a stage that is left running.
fn malformed(log: &[u8], n: usize, place: u32) -> bool {
    if (log.len() % 8 != 0) | (log.len() > 65536) {
        return out::text(b"a log has 8 bytes for each record, and 65536 at the most");
    }
    if (place == 0) & begins(log, n) {
        return out::text(b"a stage is still running at the end");
    }
    out::text(b"record") & out::field(place as u64) & out::text(b" is malformed")
}

// What is said of the rule that a log breaks, after who breaks it and when.
pub fn rule(number: u32) -> bool {
    match number {
        19 => out::text(b", before a stage that it waits for has finished"),
        20 => out::text(b", where more stages run than its type has cores"),
        21 => out::text(b" ran longer than its WCET"),
        _ => out::text(b" a core is idle while a stage of its type is ready"),
    }
}

// Who breaks it, and when.
fn subject(log: &[u8], t: &[u8], of: Names, r: Refusal) -> bool {
    let number = r.number;
    match number {
        21 => out::text(b"stage ") & quoted(t, of, (r.place % 256) as usize),
        22 => out::text(b"at") & out::field(r.place as u64),
        _ => start(log, t, of, (r.place % 8192) as usize),
    }
}

fn said(log: &[u8], t: &[u8], of: Names, n: usize, r: Refusal) -> bool {
    if r.number == 18 {
        return malformed(log, n, r.place);
    }
    subject(log, t, of, r) & rule(r.number)
}

// The log is named by argument k, and the graph has n stages.
pub fn of_log(
    rt: &impl Env,
    k: usize,
    log: &[u8],
    t: &[u8],
    of: Names,
    n: usize,
    r: Refusal,
) -> bool {
    out::argument(rt, k) & out::text(b": ") & said(log, t, of, n, r) & out::end()
}
